// The route from a stop to the next, over the part of a line between the vertices nearest to them.
ghost use Rattle.std.specs.Prelude.{◌≡◌};
ghost use Rattle.lengths.specs.Line.{line_of};
ghost use Rattle.stop_routes.specs.Routed.{roundabout, routed_of, route_between};

use ieee::max_of;
use lengths::{Point, Polyline, metres};
use line_parts::Part;
use nearest::nearest_idx;
use routes::{Route, route_of};
use ways::Way;

// A route, and the way that it is sailed.
#[derive(Clone, Copy)]
pub struct Routed {
    pub route: Route,
    pub way: Way,
}

// Whether a way of this length is over four times the straight line and over 500 metres: then the
// nearest vertices are likely on different branches. The line counts as a metre at least.
fn is_roundabout(total: f64, prev: Point, next: Point) -> bool
    ensures { result ≡ roundabout total prev next }
{
    total > max_of(metres(prev, next), 1.0) * 4.0 && total > 500.0
}

// The route over a part, unless it is under a metre or roundabout.
fn unless_refused(line: Polyline, part: Part, way: Way, prev: Point, next: Point) -> Option<Routed>
    ensures { result ≡ routed_of (line_of line.entry.lat.now line.entry.lon.now) part way prev next }
{
    let route = route_of(line, part);
    if route.total < 1.0 || is_roundabout(route.total, prev, next) {
        None
    } else {
        Some(Routed { route, way })
    }
}

// From a stop to the next; none where the stops have one nearest vertex.
#[tactic(auto, unfolding(crate::specs::Routed::route_between))]
pub fn route_between(line: Polyline, prev: Point, next: Point) -> Option<Routed>
    ensures { result ≡ route_between (line_of line.entry.lat.now line.entry.lon.now) prev next }
{
    let i0 = nearest_idx(line, prev);
    let i1 = nearest_idx(line, next);
    if i0 < i1 {
        let part = Part {
            first: i0,
            last: i1,
        };
        unless_refused(line, part, Way::With, prev, next)
    } else if i1 < i0 {
        let part = Part {
            first: i1,
            last: i0,
        };
        unless_refused(line, part, Way::Against, prev, next)
    } else {
        None
    }
}
