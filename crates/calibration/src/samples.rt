// Samples that are lent as columns: the latitudes, longitudes and distances of a trip's stops.
ghost use Rattle.std.specs.Prelude.{◌≡◌, ◌<◌, length, slice_index_or};
ghost use Rattle.lengths.specs.Line.{line_of};
ghost use Rattle.calibration.specs.Samples.{no_sample, samples_affine, samples_of};

use crate::affine::{Sample, shape_dist_affine};
use lengths::{Polyline, vertex, vertices};
use unit_scales::Affine;

// How many samples there are: as many as all three columns have rows.
fn count(line: Polyline, dist: &[f32]) -> usize
    ensures { result ≡ length (samples_of (line_of line.entry.lat.now line.entry.lon.now) dist.now) }
{
    vertices(line).min(dist.len())
}

// Sample k.
fn sample(line: Polyline, dist: &[f32], k: usize) -> Sample
    requires { k < length (samples_of (line_of line.lat.now line.lon.now) dist.now) }
    ensures { result ≡ slice_index_or (samples_of (line_of line.entry.lat.now line.entry.lon.now) dist.now) k no_sample }
{
    Sample {
        at: vertex(line, k),
        dist: std::num::f32_to_f64_with_nan(dist[k]),
    }
}

// From the first sample and the last, of two or more: y and x are their positions, lat and lon the line.
pub fn samples_affine(line: Polyline, y: &[f64], x: &[f64], dist: &[f32]) -> Option<Affine>
    ensures { result ≡ samples_affine (line_of line.entry.lat.now line.entry.lon.now) (samples_of (line_of y.now x.now) dist.now) }
{
    let n = count(Polyline { lat: y, lon: x }, dist);
    if n < 2 {
        return None;
    }
    let first = sample(Polyline { lat: y, lon: x }, dist, 0);
    let end = n - 1;
    let last = sample(Polyline { lat: y, lon: x }, dist, end);
    shape_dist_affine(line, first, last)
}
