// A part of a line with its length, and where it is at a fraction of that.
ghost use Rattle.std.specs.Prelude.{◌≡◌};
ghost use Rattle.lengths.specs.Line.{line_of};
ghost use Rattle.routes.specs.Route.{inside_of, along_of, along_vertices, route_of};

use first_stretch::stretch_at;
use lengths::{Polyline, vertices};
use line_parts::{Part, part_length, whole};
use stretches::{Drawn, Spot, draw};

// A part, and its length in metres.
#[derive(Clone, Copy)]
pub struct Route {
    pub part: Part,
    pub total: f64,
}

// A part with its length.
#[tactic(auto, unfolding(crate::specs::Route::route_of))]
pub fn route_of(line: Polyline, part: Part) -> Route
    ensures { result ≡ route_of (line_of line.entry.lat.now line.entry.lon.now) part }
{
    Route {
        part,
        total: part_length(line, part),
    }
}

// Where it is at a fraction between 0 and 1. Under a metre in all it is one straight stretch.
fn inside(line: Polyline, route: Route, f: f64) -> Spot
    ensures { result ≡ inside_of (line_of line.entry.lat.now line.entry.lon.now) route f }
{
    if route.total < 1.0 {
        Spot::Straight(f)
    } else {
        stretch_at(line, route.part, 0.000000001, route.total * f)
    }
}

// Where it is at any fraction, in the order of the vertices.
#[tactic(auto, unfolding(crate::specs::Route::along_of))]
pub fn along(line: Polyline, route: Route, f: f64) -> Spot
    ensures { result ≡ along_of (line_of line.entry.lat.now line.entry.lon.now) route f }
{
    let part = route.part;
    if part.last <= part.first || f <= 0.0 {
        Spot::First
    } else if f >= 1.0 {
        Spot::NoStretch
    } else {
        inside(line, route, f)
    }
}

// On a whole line, which has no place only where it has no vertex.
#[tactic(auto, unfolding(crate::specs::Route::along_vertices))]
pub fn interpolate_along_vertices(line: Polyline, frac: f64) -> Option<Drawn>
    ensures { result ≡ along_vertices (line_of line.entry.lat.now line.entry.lon.now) frac }
{
    if vertices(line) == 0 {
        return None;
    }
    let part = whole(line);
    let route = route_of(line, part);
    let spot = along(line, route, frac);
    Some(draw(line, part, spot))
}
