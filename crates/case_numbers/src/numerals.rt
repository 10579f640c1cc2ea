// Counts, bits and days.
ghost use Rattle.std.specs.Prelude.{◌≡◌, ◌<◌, IfSome};
ghost use Rattle.case_numbers.specs.Numerals.{below_of, number_of, double_of, single_of};

use case_digits::{digit, spelled};

// 1 to 10 decimal digits, below 2^32.
pub fn number(s: &[u8]) -> Option<u32>
    ensures { result ≡ number_of s.now }
{
    below(spelled(s, 10, 10))
}

// The bits of an f64: 16 hexadecimal digits.
pub fn double(s: &[u8]) -> Option<u64>
    ensures { result ≡ double_of s.now }
{
    if s.len() < 16 {
        return None;
    }
    spelled(s, 16, 16)
}

// The bits of an f32: 8 hexadecimal digits.
pub fn single(s: &[u8]) -> Option<u32>
    ensures { result ≡ single_of s.now }
{
    if s.len() < 8 {
        return None;
    }
    below(spelled(s, 16, 8))
}

fn below(n: Option<u64>) -> Option<u32>
    ensures { result ≡ below_of n }
{
    u32::try_from(n?).ok()
}

// Seven of 0 and 1, Monday first: a bit for each, Monday lowest.
pub fn days(s: &[u8]) -> Option<u8>
    ensures { IfSome result (λ bits. bits < 128) }
{
    if s.len() != 7 {
        return None;
    }
    let mut bits = 0;
    for b in s.iter().rev() {
        let day = digit(*b, 2)?;
        bits = bits % 64 * 2 + day;
    }
    Some(bits as u8)
}
