// A part of a line: the vertices from one to another. Its length is summed from its first vertex,
// and is no difference of lengths along the whole line, whose bits differ.
ghost use Rattle.std.specs.Prelude.{◌≡◌, suc, get_or};
ghost use Rattle.lengths.specs.Line.{line_of, nowhere};
ghost use Rattle.line_parts.specs.Part.{stretch_length, part_length, whole_of};

use lengths::{Point, Polyline, metres, vertex, vertices};

// Both vertices are of the part. Where `last` is not above `first` it has no stretch.
#[derive(Clone, Copy)]
pub struct Part {
    pub first: usize,
    pub last: usize,
}

// Vertex k, and NaN for a vertex that the line has not.
pub fn point(line: Polyline, k: usize) -> Point
    ensures { result ≡ get_or (line_of line.entry.lat.now line.entry.lon.now) k nowhere }
{
    if k < vertices(line) {
        vertex(line, k)
    } else {
        Point {
            lat: f64::NAN,
            lon: f64::NAN,
        }
    }
}

// The vertex after k.
#[tactic(auto, using(crate::proofs::Sums::no_vertex))]
pub fn next_point(line: Polyline, k: usize) -> Point
    ensures { result ≡ get_or (line_of line.entry.lat.now line.entry.lon.now) (suc k) nowhere }
{
    if k < vertices(line) {
        point(line, k + 1)
    } else {
        point(line, k)
    }
}

// The length of the stretch from vertex k to the next.
#[tactic(auto, unfolding(crate::specs::Part::stretch_length))]
pub fn stretch_length(line: Polyline, k: usize) -> f64
    ensures { result ≡ stretch_length (line_of line.entry.lat.now line.entry.lon.now) k }
{
    metres(point(line, k), next_point(line, k))
}

// The whole of a line.
pub fn whole(line: Polyline) -> Part
    ensures { result ≡ whole_of (line_of line.entry.lat.now line.entry.lon.now) }
{
    Part {
        first: 0,
        last: vertices(line).saturating_sub(1),
    }
}

// The length of a part.
#[tactic(auto, unfolding(crate::specs::Part::part_length))]
pub fn part_length(line: Polyline, part: Part) -> f64
    ensures { result ≡ part_length (line_of line.entry.lat.now line.entry.lon.now) part }
{
    let mut sum = 0.0;
    for k in part.first..part.last {
        sum += stretch_length(line, k);
    }
    sum
}
