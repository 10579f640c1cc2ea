// Ids: a byte stands for itself, and % with two digits for the byte that they spell; % alone is the id of no bytes.
ghost use Rattle.std.specs.Prelude.{◌≤◌, ◌<◌, length, IfSome};

use case_digits::digit;

// Whether a byte stands for itself.
pub fn is_plain(b: u8) -> bool {
    !matches!(b, b'\n' | b' ' | b'%' | b'(' | b')')
}

// The first byte of an id, and the text after what stands for it; nothing where no byte stands there.
pub fn coded(s: &[u8]) -> Option<(u8, &[u8])>
    ensures { IfSome result (λ c. length c.1.now < length s.now) }
{
    match s {
        [b'%', high, low, rest @ ..] => {
            let byte = digit(*high, 16)? * 16 + digit(*low, 16)?;
            Some((byte as u8, rest))
        }
        [b, rest @ ..] if is_plain(*b) => Some((*b, rest)),
        _ => None,
    }
}

// How many bytes the id has that a text stands for, each given to `put` with its place; nothing where it is no id, or has more than `most`.
fn each_byte<F: FnMut(usize, u8)>(s: &[u8], most: usize, mut put: F) -> Option<usize>
    requires { F.IsAlwaysCallable put }
    ensures { IfSome result (λ n. n ≤ most) }
{
    if s == b"%".as_slice() {
        return Some(0);
    }
    if s.is_empty() {
        return None;
    }
    let mut n = 0;
    let mut left = s;
    while !left.is_empty() {
        let (byte, rest) = coded(left)?;
        if most <= n {
            return None;
        }
        put(n, byte);
        n += 1;
        left = rest;
    }
    Some(n)
}

// How many bytes the id has that a text stands for; nothing where it is no id, or there are more than `most`.
pub fn id_length(s: &[u8], most: usize) -> Option<usize>
    ensures { IfSome result (λ n. n ≤ most) }
{
    each_byte(s, most, |_, _| ())
}

// Puts an id's bytes into `out` from `at` on, and says how many; nothing where the text is no id, or there are more than `most` or than there is room for.
pub fn put_id(out: &mut [u8], at: usize, most: usize, s: &[u8]) -> Option<usize>
    ensures { IfSome result (λ n. n ≤ most) }
{
    let at = at.min(out.len());
    let room = &mut out[at..];
    each_byte(s, most.min(room.len()), |n, byte| {
        if let Some(place) = room.get_mut(n) {
            *place = byte;
        }
    })
}
