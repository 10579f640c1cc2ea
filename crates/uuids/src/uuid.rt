// Whether a text is a UUID: 36 bytes with dashes at their places, between spaces.
ghost use Rattle.std.specs.Prelude.{◌≡◌};
ghost use Rattle.uuids.specs.Uuids.{bare, dashed, is_uuid};

use ids::Kind;
use parts::{first, from};

// Without spaces at the beginning and at the end.
fn bare_text<'a>(s: &'a [u8]) -> &'a [u8]
    ensures { result.now ≡ bare s.now }
{
    let t = from(s, text_runs::run(s, Kind::Byte(b' ')));
    first(t, text_runs::trimmed(t, b' '))
}

// 36 bytes with four dashes at the places of a UUID.
fn has_dashes(s: &[u8]) -> bool
    ensures { result ≡ dashed s.now }
{
    if s.len() != 36 {
        return false;
    }
    if s[8] != b'-' {
        return false;
    }
    if s[13] != b'-' {
        return false;
    }
    if s[18] != b'-' {
        return false;
    }
    s[23] == b'-'
}

// The same between spaces.
pub fn is_uuid(j: &[u8]) -> bool
    ensures { result ≡ is_uuid j.now }
{
    has_dashes(bare_text(j))
}
