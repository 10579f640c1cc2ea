// The token of a line, of a route id or of a journey ref. It is looked up in upper case.
ghost use Rattle.std.specs.Prelude.{◌≡◌};
ghost use Rattle.tokens.specs.Tokens.{ref_token, journey_token, token_of};

use parts::{after_last, first};
use product_codes::product_code;
use refs::journey_id;

// Five bytes at least, of which the first is 'C'.
fn ref_token<'a>(s: &'a [u8]) -> &'a [u8]
    ensures { result.now ≡ ref_token s.now }
{
    if s.len() < 5 {
        return &s[..0];
    }
    if s[0] == b'C' {
        return s;
    }
    &s[..0]
}

// The token of a journey ref: the last of its id's parts between dots.
pub fn journey_token<'a>(base: &'a [u8]) -> &'a [u8]
    ensures { result.now ≡ journey_token base.now }
{
    ref_token(after_last(journey_id(base), b'.'))
}

// The route's token, or else the journey's.
pub fn token_of<'a>(route: &'a [u8], base: &'a [u8]) -> &'a [u8]
    ensures { result.now ≡ token_of route.now base.now }
{
    let t = product_code(route);
    if t.len() == 0 {
        return journey_token(base);
    }
    t
}
