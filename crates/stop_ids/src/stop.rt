// The stop that an update means.
ghost use Rattle.std.specs.Prelude.{◌≤◌, true, cond, ◌≡◌, length, None};
ghost use Rattle.stop_keys.specs.Names.{named_stop};
ghost use Rattle.stop_ids.specs.Stops.{row_stop_of, stop_of};

use stop_keys::StopIds;
use stop_names::named_stop;
use stop_rows::row_stop;
use trip_ids::by_key;

// By its name, if it has one.
fn by_name(stops: &StopIds, feed: &[u8], named: bool, s: &[u8]) -> Option<usize>
    requires feed_len_bound { length feed.now ≤ 96 }
    requires s_len_bound { named ≡ true → length s.now ≤ 96 }
    ensures { result ≡ cond named (named_stop stops.now.lent.bytes.now stops.now.lent.words.now stops.now.lookup feed.now s.now) None }
{
    if named {
        return named_stop(stops, feed, s);
    }
    None
}

// By its name, or else by its sequence in the trip whose id is the base key.
#[tactic(auto, unfolding(crate::specs::Stops::stop_of))]
pub fn stop_of(
    stops: &StopIds,
    feed: &[u8],
    base: &[u8],
    named: bool,
    s: &[u8],
    sequence: u32,
) -> Option<usize>
    requires feed_len_bound { length feed.now ≤ 96 }
    requires s_len_bound { named ≡ true → length s.now ≤ 96 }
    ensures { result ≡ stop_of stops.now.lent.bytes.now stops.now.lent.words.now stops.now.lookup feed.now base.now named s.now sequence }
{
    if let Some(stop) = by_name(stops, feed, named, s) {
        return Some(stop);
    }
    let trip = by_key(&stops.lent, stops.lookup.tripkeys, base)?;
    row_stop(&stops.lent, stops.lookup, trip, sequence)
}
