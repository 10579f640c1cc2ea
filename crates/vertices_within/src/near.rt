// Distances from a stop to the vertices of a line, from one of them on. A vertex that is past a limit
// of `reach` is passed over without its distance.
ghost use Rattle.std.specs.Prelude.{◌≡◌, ◌<◌, length, drop, get_or};
ghost use Rattle.std.specs.Float.Ieee.{le};
ghost use Rattle.lengths.specs.Line.{line_of, nowhere};
ghost use Rattle.maths.specs.Trig.{cos_of, radians_of};
ghost use Rattle.sphere_lengths.specs.Length.{way_of};
ghost use Rattle.reach.specs.Reach.{Beyond};
ghost use Rattle.vertices_within.specs.Near.{aside_of, distances_of, first_within, last_within};

use lengths::{Point, Polyline, vertex, vertices};
use maths::{cos, radians};
use reach::{is_beyond, limit};
use sphere_lengths::{haversin, way};

// What the distance from the stop to vertex k is the way of. c is the cosine of the stop's latitude.
pub fn aside(line: Polyline, stop: Point, c: f64, k: usize) -> f64
    requires k_in_bounds { k < length (line_of line.lat.now line.lon.now) }
    requires c_value { c ≡ cos_of (radians_of stop.lat) }
    ensures { result ≡ aside_of stop (get_or (line_of line.entry.lat.now line.entry.lon.now) k nowhere) }
{
    let v = vertex(line, k);
    haversin(stop.lat, stop.lon, c, v.lat, v.lon)
}

// Whether the way of a is no longer than `most`.
fn is_within(far: f64, most: f64, a: f64) -> bool
    requires { Beyond most far }
    ensures { result ≡ le (way_of a) most }
{
    !is_beyond(far, a) && way(a) <= most
}

// The first vertex that is no farther than `most`.
pub fn first_within(line: Polyline, stop: Point, from: usize, most: f64) -> Option<usize>
    ensures { result ≡ first_within most from (distances_of stop (drop from (line_of line.entry.lat.now line.entry.lon.now))) }
{
    let c = cos(radians(stop.lat));
    let far = limit(most);
    for k in from..vertices(line) {
        if is_within(far, most, aside(line, stop, c, k)) {
            return Some(k);
        }
    }
    None
}

// The last.
pub fn last_within(line: Polyline, stop: Point, from: usize, most: f64) -> Option<usize>
    ensures { result ≡ last_within most from (distances_of stop (drop from (line_of line.entry.lat.now line.entry.lon.now))) }
{
    let c = cos(radians(stop.lat));
    let far = limit(most);
    for k in (from..vertices(line)).rev() {
        if is_within(far, most, aside(line, stop, c, k)) {
            return Some(k);
        }
    }
    None
}
