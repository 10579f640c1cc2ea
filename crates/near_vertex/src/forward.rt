// The vertex of a line that a stop lies at, searched from a vertex on. It is not the nearest: it is
// the first, or the last, that is no more than the slack farther than the nearest.
ghost use Rattle.std.specs.Prelude.{◌≡◌};
ghost use Rattle.lengths.specs.Line.{line_of};
ghost use Rattle.vertices_within.specs.Near.{first_within, last_within};
ghost use Rattle.near_vertex.specs.Forward.{or_vertex, start_of, forward_last_index, forward_shape_index, near_of};

use distance_sweep::{Nearest, sweep};
use least_distance::least_from;
use lengths::{Point, Polyline, vertices};
use vertices_within::{first_within, last_within};

// The vertex that a search from `from` begins at: brought down to the last, and 0 on a line without
// vertices.
#[tactic(auto, unfolding(crate::specs::Forward::start_of))]
fn start(line: Polyline, from: usize) -> usize
    ensures { result ≡ start_of (line_of line.entry.lat.now line.entry.lon.now) from }
{
    from.min(vertices(line).saturating_sub(1))
}

// The vertex found, or the one that the search began at.
fn or_vertex(found: Option<usize>, from: usize) -> usize
    ensures { result ≡ or_vertex found from }
{
    match found {
        Some(k) => k,
        None => from,
    }
}

// The first vertex within the slack of the least distance. Where it is the one marked, no vertex is
// looked at again.
fn first_near(line: Polyline, stop: Point, at: usize) -> Option<usize>
    ensures { result ≡ near_of first_within (line_of line.entry.lat.now line.entry.lon.now) at stop }
{
    let near = sweep(line, stop, at);
    let from = near.from;
    if near.upto - from == 1 {
        Some(from)
    } else {
        first_within(line, stop, from, near.best + Nearest::SLACK)
    }
}

// The last.
fn last_near(line: Polyline, stop: Point, at: usize) -> Option<usize>
    ensures { result ≡ near_of last_within (line_of line.entry.lat.now line.entry.lon.now) at stop }
{
    let best = least_from(line, stop, at);
    last_within(line, stop, at, best + Nearest::SLACK)
}

// The first vertex from `from` on within the slack of the least distance; `from`, brought down to the
// last vertex, where every distance is NaN.
#[tactic(auto, unfolding(crate::specs::Forward::forward_shape_index))]
pub fn forward_shape_index(line: Polyline, from: usize, stop: Point) -> usize
    ensures { result ≡ forward_shape_index (line_of line.entry.lat.now line.entry.lon.now) from stop }
{
    let at = start(line, from);
    or_vertex(first_near(line, stop, at), at)
}

// The last: for the end of a trip on a line that ends where it starts.
#[tactic(auto, unfolding(crate::specs::Forward::forward_last_index))]
pub fn forward_last_index(line: Polyline, from: usize, stop: Point) -> usize
    ensures { result ≡ forward_last_index (line_of line.entry.lat.now line.entry.lon.now) from stop }
{
    let at = start(line, from);
    or_vertex(last_near(line, stop, at), at)
}
