// The least distance from a stop to the vertices of a line, looked for from the line's end: a trip's
// last stop is mostly near it, and then nearly every vertex before is past the limit.
ghost use Rattle.std.specs.Prelude.{◌≡◌, cond, drop};
ghost use Rattle.std.specs.Float.Ieee.{le};
ghost use Rattle.lengths.specs.Line.{line_of};
ghost use Rattle.sphere_lengths.specs.Length.{way_of};
ghost use Rattle.reach.specs.Reach.{Beyond};
ghost use Rattle.vertices_within.specs.Near.{distances_of, least_in};

use lengths::{Point, Polyline, vertices};
use maths::{cos, radians};
use reach::is_beyond;
use sphere_lengths::way;
use vertices_within::{aside, far};

#[derive(Clone, Copy)]
pub struct Least {
    // The least distance so far.
    pub best: f64,
    // Past this no distance is as short.
    pub limit: f64,
}

// With a vertex before those, whose distance is the way of a; so many are left.
fn lesser(least: Least, a: f64, left: usize) -> Least
    requires { Beyond least.best least.limit }
    ensures best { result.best ≡ cond (le (way_of a) least.best) (way_of a) least.best }
    ensures beyond { Beyond result.best result.limit }
{
    if is_beyond(least.limit, a) {
        return least;
    }
    let d = way(a);
    if d <= least.best {
        return Least {
            best: d,
            limit: far(d, left),
        };
    }
    least
}

// Over the vertices from `at` on. A distance that is NaN is never the least, which is infinity where
// there is no other.
pub fn least_from(line: Polyline, stop: Point, at: usize) -> f64
    ensures { result ≡ least_in (distances_of stop (drop at (line_of line.entry.lat.now line.entry.lon.now))) }
{
    let c = cos(radians(stop.lat));
    let mut least = Least {
        best: f64::INFINITY,
        limit: f64::INFINITY,
    };
    for k in (at..vertices(line)).rev() {
        least = lesser(least, aside(line, stop, c, k), k - at);
    }
    least.best
}
