// The shape and the chain of a leg. A leg of no trip has no shape, and no stop between its ends.
ghost use Rattle.std.specs.Prelude.{◌≡◌};
ghost use Rattle.leg_paths.specs.Leg.{leg_span, leg_rows};

use chain_rows::{Chain, chain_of};
use courses::Course;
use ids::{Lent, Span};
use paths::End;
use trip_rows::trip_span;

// The points of its trip's shape.
pub fn leg_span(lent: &Lent, c: Course, trip: Option<usize>) -> Span
    ensures { result ≡ leg_span lent.now.bytes.now lent.now.words.now c trip }
{
    let trips = c.trips;
    let shapes = c.shapes;
    match trip {
        Some(trip) => trip_span(lent, trips, shapes, trip),
        None => Span { at: 0, n: 0 },
    }
}

// The rows and ends of its chain.
pub fn leg_rows(words: &[u32], c: Course, trip: Option<usize>, from: End, to: End) -> Chain
    ensures { result ≡ leg_rows words.now c trip from to }
{
    let trips = c.trips;
    let a = from.at;
    let b = to.at;
    match trip {
        Some(trip) => chain_of(words, trips, trip, from.sequence, a, to.sequence, b),
        None => Chain {
            first: 0,
            count: 0,
            lo: 0,
            hi: 0,
            reversed: false,
            from: a,
            to: b,
        },
    }
}
