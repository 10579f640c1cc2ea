// The first departure of all updates, whether their stops are found or not: that of `trip_resolve_hint`.
ghost use Rattle.std.specs.Prelude.{◌≡◌};
ghost use Rattle.first_departures.specs.Firsts.{least_of, earlier, first_departure};

use ids::Lent;
use tables::Updates;
use update_rows::{is_timed, moment_or};

// The earlier of a moment, if there is one, and another.
fn least(first: Option<u64>, x: u64) -> Option<u64>
    ensures { result ≡ least_of first x }
{
    match first {
        Some(a) => Some(a.min(x)),
        None => Some(x),
    }
}

// The earlier of a moment, if there is one, and row k's departure, if it has a time.
fn earlier_of(lent: &Lent, u: Updates, first: Option<u64>, k: usize) -> Option<u64>
    ensures { result ≡ earlier lent.now.bytes.now u lent.now.times.now first k }
{
    let departs = u.departs;
    let departure = u.departure;
    let arrival = u.arrival;
    if is_timed(lent.bytes, u, k) {
        return least(first, moment_or(lent, departs, departure, arrival, k));
    }
    first
}

// The first departure, an update's arrival where it has none.
#[tactic(auto, using(crate::proofs::Earliest::first_next), unfolding(crate::specs::Firsts::first_departure, crate::specs::Firsts::first_below))]
pub fn first_departure(lent: &Lent, u: Updates) -> Option<u64>
    ensures { result ≡ first_departure lent.now.bytes.now u lent.now.times.now }
{
    let sequence = u.sequence;
    let mut first = None;
    for k in 0..sequence.n as usize {
        first = earlier_of(lent, u, first, k);
    }
    first
}
