// The part of a line between the vertices nearest to two stops.
ghost use Rattle.std.specs.Prelude.{◌≡◌};
ghost use Rattle.lengths.specs.Line.{line_of};
ghost use Rattle.polylines.specs.Polyline.{spot_along, polyline_of};

use ieee::clamp01;
use lengths::{Point, Polyline};
use routes::{Route, along};
use stop_routes::route_between;
use stretches::{Drawn, Spot, draw};
use ways::{Way, turned};

// Where a route is at a fraction of it in sailing direction.
#[tactic(auto, unfolding(crate::specs::Polyline::spot_along))]
pub fn spot_along(line: Polyline, route: Route, way: Way, frac: f64) -> Spot
    ensures { result ≡ spot_along (line_of line.entry.lat.now line.entry.lon.now) route way frac }
{
    along(line, route, clamp01(turned(way, frac)))
}

// At a fraction of the way from a stop to the next.
#[tactic(auto, unfolding(crate::specs::Polyline::polyline_of))]
pub fn interpolate_polyline(line: Polyline, prev: Point, next: Point, frac: f64) -> Option<Drawn>
    ensures { result ≡ polyline_of (line_of line.entry.lat.now line.entry.lon.now) prev next frac }
{
    let found = route_between(line, prev, next)?;
    let spot = spot_along(line, found.route, found.way, frac);
    Some(draw(line, found.route.part, spot))
}
