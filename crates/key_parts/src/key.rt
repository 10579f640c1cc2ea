// Trip keys less what stands at their ends.
ghost use Rattle.std.specs.Prelude.{◌≡◌};
ghost use Rattle.key_parts.specs.Keys.{base_of, raw_of, without_loc, without_colons, without_locs, tail_of};

use parts::{after_last, first, from, if_long};

// A trip key before its last '@', or all of it.
pub fn base<'a>(key: &'a [u8]) -> &'a [u8]
    ensures { result.now ≡ base_of key.now }
{
    match text_runs::last_of(key, b'@') {
        Some(k) => first(key, k),
        None => key,
    }
}

// Less one "idfm:" or "IDFM:" at the beginning.
pub fn raw<'a>(s: &'a [u8]) -> &'a [u8]
    ensures { result.now ≡ raw_of s.now }
{
    if texts::begins(s, b"idfm:") {
        return from(s, 5);
    }
    if texts::begins(s, b"IDFM:") {
        return from(s, 5);
    }
    s
}

// Less one ":LOC" at the end.
pub fn without_loc<'a>(s: &'a [u8]) -> &'a [u8]
    ensures { result.now ≡ without_loc s.now }
{
    if texts::ends_with(s, b":LOC") {
        return first(s, s.len() - 4);
    }
    s
}

// Less every ':' at the end.
pub fn without_colons<'a>(s: &'a [u8]) -> &'a [u8]
    ensures { result.now ≡ without_colons s.now }
{
    first(s, text_runs::trimmed(s, b':'))
}

// Less every ":LOC" at the end.
pub fn without_locs<'a>(s: &'a [u8]) -> &'a [u8]
    ensures { result.now ≡ without_locs s.now }
{
    first(s, texts::trimmed_text(s, b":LOC"))
}

// The tail of a base key by which a trip id may be known.
pub fn tail<'a>(s: &'a [u8]) -> &'a [u8]
    ensures { result.now ≡ tail_of s.now }
{
    if_long(after_last(without_loc(without_colons(s)), b':'), 6)
}
