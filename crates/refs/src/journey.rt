// The journey id of a ref.
ghost use Rattle.std.specs.Prelude.{◌≡◌};
ghost use Rattle.refs.specs.Refs.{after_colons, without_loc_part, is_kind, after_kind, after_parts, journey_id_of};

use key_parts::{without_colons, without_locs};
use parts::{after_last, before, past_place};

// What stands after the first "::", trimmed.
fn after_colons<'a>(s: &'a [u8]) -> &'a [u8]
    ensures { result.now ≡ after_colons s.now }
{
    without_locs(without_colons(past_place(s, texts::first_place(s, b"::"), 2)))
}

// Less the last of its parts between colons, where that is "LOC" in any case.
fn without_loc_part<'a>(s: &'a [u8]) -> &'a [u8]
    ensures { result.now ≡ without_loc_part s.now }
{
    if texts::equal_ignoring_case(after_last(s, b':'), b"LOC") {
        return before(s, text_runs::last_of(s, b':'));
    }
    s
}

fn is_kind(s: &[u8]) -> bool
    ensures { result ≡ is_kind s.now }
{
    if texts::equal_ignoring_case(s, b"ServiceJourney") {
        return true;
    }
    texts::equal_ignoring_case(s, b"VehicleJourney")
}

// What stands after the kind, with which s begins; none where that is no kind.
fn after_kind<'a>(s: &'a [u8]) -> &'a [u8]
    ensures { result.now ≡ after_kind s.now }
{
    let colon = text_runs::first_of(s, b':');
    if is_kind(before(s, colon)) {
        return without_loc_part(past_place(s, colon, 1));
    }
    &s[..0]
}

// The parts after the kind, which is the second part between colons.
fn after_parts<'a>(s: &'a [u8]) -> &'a [u8]
    ensures { result.now ≡ after_parts s.now }
{
    after_kind(past_place(s, text_runs::first_of(s, b':'), 1))
}

// The journey id of a ref.
pub fn journey_id<'a>(s: &'a [u8]) -> &'a [u8]
    ensures { result.now ≡ journey_id_of s.now }
{
    let id = after_colons(s);
    if id.len() == 0 {
        return after_parts(s);
    }
    id
}
