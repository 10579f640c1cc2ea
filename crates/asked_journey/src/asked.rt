// What the row of a journey says.
ghost use Rattle.std.specs.Prelude.{◌≡◌};
ghost use Rattle.moments.specs.Moments.{InReach};
ghost use Rattle.asked_journey.specs.Journeys.{time_of, route_of, departs_of, local_of};

use ids::{Lent, Span};
use tables::Journey;

// The first time of a column, or 0 past the end of the pool.
fn time(times: &[i64], column: Span) -> i64
    ensures { result ≡ time_of times.now column }
{
    times.get(column.at as usize).copied().unwrap_or(0)
}

/// The route, or an empty text where there is none.
#[tactic(auto, unfolding(crate::specs::Journeys::route_of))]
pub fn route<'a>(lent: &Lent<'a>, j: Journey) -> &'a [u8]
    ensures { result.now ≡ route_of lent.now.bytes.now lent.now.words.now j }
{
    if columns::bit(lent.bytes, j.routed, 0) == 0 {
        return &lent.bytes[..0];
    }
    ids::id(lent, j.route, 0)
}

/// Whether there is a first departure.
#[tactic(auto, unfolding(crate::specs::Journeys::departs_of))]
pub fn departs(bytes: &[u8], j: Journey) -> bool
    ensures { result ≡ departs_of bytes.now j }
{
    columns::bit(bytes, j.departs, 0) != 0
}

/// The first departure in local time, or 0 where there is none.
pub fn local(lent: &Lent, j: Journey) -> i64
    requires { InReach (local_of lent.now.bytes.now lent.now.times.now j) }
    ensures { result ≡ local_of lent.now.bytes.now lent.now.times.now j }
{
    if departs(lent.bytes, j) {
        return time(lent.times, j.departure) + time(lent.times, j.offset);
    }
    0
}
