// The line of a trip's shape.
ghost use Rattle.std.specs.Prelude.{◌≡◌};
ghost use Rattle.trip_rows.specs.Rows.{shape_span, trip_span, shape_column};

use ids::{Lent, Span};
use tables::{Shapes, Trips, cut};

// The points of a shape, counted from the first of all.
#[tactic(auto, unfolding(crate::specs::Rows::shape_span))]
pub fn shape_span(words: &[u32], s: Shapes, shape: usize) -> Span
    ensures { result ≡ shape_span words.now s shape }
{
    let first = s.first;
    let count = s.count;
    Span {
        at: ids::cell(words, first, shape),
        n: ids::cell(words, count, shape),
    }
}

// The points of a trip's shape; none where it has no shape.
#[tactic(auto, unfolding(crate::specs::Rows::trip_span))]
pub fn trip_span(lent: &Lent, t: Trips, s: Shapes, trip: usize) -> Span
    ensures { result ≡ trip_span lent.now.bytes.now lent.now.words.now t s trip }
{
    let shaped = t.shaped;
    let shape = t.shape;
    if columns::bit(lent.bytes, shaped, trip) == 0 {
        return Span { at: 0, n: 0 };
    }
    shape_span(lent.words, s, ids::cell(lent.words, shape, trip) as usize)
}

// Their latitudes or longitudes, of the column of all points.
#[tactic(auto, unfolding(crate::specs::Rows::shape_column))]
pub fn shape_column<'a>(reals: &'a [f64], column: Span, points: Span) -> &'a [f64]
    ensures { result.now ≡ shape_column reals.now column points }
{
    cut(cut(reals, column), points)
}
