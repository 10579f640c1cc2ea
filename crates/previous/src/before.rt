// The static stop before a call: the Rust's `previous_static_stop`. Its first loop passes over rows that are not
// positioned and stops at the call; its second, where the call is not in the trip, stops at the call's sequence.
ghost use Rattle.std.specs.Prelude.{◌≡◌};
ghost use Rattle.previous.specs.Before.{limit_row, prev_row};

use crate::search::{first_from, first_target, last_placed};
use ids::{Lent, cell};
use tables::{StopTimes, Stops, Trips};

// The row that the stop before is looked for before: the call's, or else the first from its sequence on, or else the end of the trip's.
fn limit_row(
    lent: &Lent,
    times: StopTimes,
    stops: Stops,
    sequence: u32,
    stop: usize,
    from: u32,
    n: u32,
) -> usize
    ensures { result ≡ limit_row lent.now.bytes.now lent.now.words.now times stops sequence stop from n }
{
    let target = first_target(lent, times, stops, sequence, stop, from, n);
    if let Some(row) = target {
        return row;
    }
    let later = first_from(lent.words, times, sequence, from, n);
    if let Some(row) = later {
        return row;
    }
    from as usize + n as usize
}

// The last positioned row of the trip before the call at the stop with the sequence.
pub fn previous_row(
    lent: &Lent,
    trips: Trips,
    times: StopTimes,
    stops: Stops,
    trip: Option<usize>,
    sequence: u32,
    stop: usize,
) -> Option<usize>
    ensures { result ≡ prev_row lent.now.bytes.now lent.now.words.now trips times stops trip sequence stop }
{
    let Some(trip) = trip else {
        return None;
    };
    let firsts = trips.first;
    let counts = trips.count;
    let from = cell(lent.words, firsts, trip);
    let n = cell(lent.words, counts, trip);
    let end = limit_row(lent, times, stops, sequence, stop, from, n);
    last_placed(lent, times, stops, from, end)
}
