// The tables that a trip's course is read from, and the line of a shape.
ghost use Rattle.std.specs.Prelude.{◌≡◌};
ghost use Rattle.courses.specs.Course.{shape_part};

use ids::{Lent, Span};
use tables::{Points, Shapes, StopTimes, Stops, Trips};
use trip_rows::{shape_column, shape_span};

#[derive(Clone, Copy)]
pub struct Course {
    pub trips: Trips,
    pub times: StopTimes,
    pub stops: Stops,
    pub shapes: Shapes,
    pub points: Points,
}

// A shape's part of a column of all points.
#[tactic(auto, unfolding(crate::specs::Course::shape_part))]
fn shape_part<'a>(lent: &Lent<'a>, shapes: Shapes, column: Span, shape: usize) -> &'a [f64]
    ensures { result.now ≡ shape_part lent.now.words.now lent.now.reals.now shapes column shape }
{
    shape_column(lent.reals, column, shape_span(lent.words, shapes, shape))
}

// The latitudes of a shape's points.
pub fn shape_lat<'a>(lent: &Lent<'a>, c: Course, shape: usize) -> &'a [f64]
    ensures { result.now ≡ shape_part lent.now.words.now lent.now.reals.now c.shapes c.points.lat shape }
{
    shape_part(lent, c.shapes, c.points.lat, shape)
}

// Their longitudes.
pub fn shape_lon<'a>(lent: &Lent<'a>, c: Course, shape: usize) -> &'a [f64]
    ensures { result.now ≡ shape_part lent.now.words.now lent.now.reals.now c.shapes c.points.lon shape }
{
    shape_part(lent, c.shapes, c.points.lon, shape)
}
