// The metres along a line that a feed's distances stand for, measured between two stops.
ghost use Rattle.std.specs.Prelude.{◌≡◌};
ghost use Rattle.lengths.specs.Line.{line_of};
ghost use Rattle.calibration.specs.Affine.{shape_dist_affine};

use lengths::{Point, Polyline, vertices};
use near_vertex::{forward_last_index, forward_shape_index};
use running_lengths::length_to;
use unit_scales::{Affine, between};

// A stop's position, and its distance along the line in the feed's own unit.
#[derive(Clone, Copy)]
pub struct Sample {
    pub at: Point,
    pub dist: f64,
}

// From the first and the last sample of a trip: the first lies at the first vertex near it, the last at
// the last near it from there on.
pub fn shape_dist_affine(line: Polyline, first: Sample, last: Sample) -> Option<Affine>
    ensures { result ≡ shape_dist_affine (line_of line.entry.lat.now line.entry.lon.now) first last }
{
    if vertices(line) < 2 {
        return None;
    }
    let from = first.at;
    let to = last.at;
    let i0 = forward_shape_index(line, 0, from);
    let i1 = forward_last_index(line, i0, to);
    let m0 = length_to(line, i0);
    let m1 = length_to(line, i1);
    between(first.dist, m0, last.dist, m1)
}
