// The position at a fraction of the way between two distances along a line.
ghost use Rattle.std.specs.Prelude.{◌≡◌};
ghost use Rattle.lengths.specs.Line.{line_of};
ghost use Rattle.by_distance.specs.Interpolate.{spot_over, drawn_over, by_dist, by_feed_dist};

use first_stretch::stretch_at;
use lengths::{Polyline, vertices};
use line_parts::whole;
use spans::{Span, feed_metres, span_of, target};
use stretches::{Drawn, Spot, draw};

// Where a span is at a fraction of it in sailing direction.
pub fn spot_over(line: Polyline, span: Span, frac: f64) -> Spot
    ensures { result ≡ spot_over (line_of line.entry.lat.now line.entry.lon.now) span frac }
{
    stretch_at(line, whole(line), 0.000001, target(span, frac))
}

// The position there, if the span is not short.
fn drawn_over(line: Polyline, spanned: Option<Span>, frac: f64) -> Option<Drawn>
    ensures { result ≡ drawn_over (line_of line.entry.lat.now line.entry.lon.now) spanned frac }
{
    match spanned {
        Some(span) => {
            let spot = spot_over(line, span, frac);
            Some(draw(line, whole(line), spot))
        }
        None => None,
    }
}

// Between two distances in metres. None on a line of fewer than two vertices, or over a short span.
#[tactic(auto, unfolding(crate::specs::Interpolate::by_dist))]
pub fn interpolate_shape_by_dist(line: Polyline, d0: f32, d1: f32, frac: f64) -> Option<Drawn>
    ensures { result ≡ by_dist (line_of line.entry.lat.now line.entry.lon.now) d0 d1 frac }
{
    if vertices(line) < 2 {
        None
    } else {
        drawn_over(line, span_of(d0, d1), frac)
    }
}

// Between two distances of a feed, with the calibration a + b·d.
#[tactic(auto, unfolding(crate::specs::Interpolate::by_feed_dist))]
pub fn interpolate_shape_by_feed_dist(
    line: Polyline,
    d0: f32,
    d1: f32,
    frac: f64,
    a: f64,
    b: f64,
) -> Option<Drawn>
    ensures { result ≡ by_feed_dist (line_of line.entry.lat.now line.entry.lon.now) d0 d1 frac a b }
{
    let m0 = feed_metres(a, b, d0);
    let m1 = feed_metres(a, b, d1);
    interpolate_shape_by_dist(line, m0, m1, frac)
}
