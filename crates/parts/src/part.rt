// Parts of a text, total: a place past its end is its end.
ghost use Rattle.std.specs.Prelude.{◌≡◌, [], take, drop};
ghost use Rattle.parts.specs.Parts.{up_to, past, after_last, if_long};

// The first n bytes.
pub fn first<'a>(s: &'a [u8], n: usize) -> &'a [u8]
    ensures { result.now ≡ take n s.now }
{
    ids::part(s, 0, n)
}

// All but the first n bytes.
pub fn from<'a>(s: &'a [u8], n: usize) -> &'a [u8]
    ensures { result.now ≡ drop n s.now }
{
    if s.len() < n {
        return &s[..0];
    }
    &s[n..]
}

// The text before the place, or none.
pub fn before<'a>(s: &'a [u8], place: Option<usize>) -> &'a [u8]
    ensures { result.now ≡ up_to place s.now [] }
{
    match place {
        Some(k) => first(s, k),
        None => &s[..0],
    }
}

// The text from n bytes after the place on, or none.
pub fn past_place<'a>(s: &'a [u8], place: Option<usize>, n: usize) -> &'a [u8]
    ensures { result.now ≡ past n place s.now [] }
{
    match place {
        Some(k) => from(from(s, k), n),
        None => &s[..0],
    }
}

// The text after the last such byte, or all of it.
pub fn after_last<'a>(s: &'a [u8], byte: u8) -> &'a [u8]
    ensures { result.now ≡ after_last byte s.now }
{
    match text_runs::last_of(s, byte) {
        Some(k) => from(from(s, k), 1),
        None => s,
    }
}

// The text if it has that many bytes, or none.
pub fn if_long<'a>(s: &'a [u8], n: usize) -> &'a [u8]
    ensures { result.now ≡ if_long n s.now }
{
    if n <= s.len() {
        return s;
    }
    &s[..0]
}
