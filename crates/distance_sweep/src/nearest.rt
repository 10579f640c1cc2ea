// The least distance from a stop to the vertices of a line, in one pass. The pass remembers as much of
// the vertices near the least as answers most searches for the first of them.
ghost use Rattle.std.specs.Prelude.{◌≡◌};
ghost use Rattle.lengths.specs.Line.{line_of};
ghost use Rattle.sphere_lengths.specs.Length.{way_of};
ghost use Rattle.reach.specs.Reach.{Beyond};
ghost use Rattle.distance_sweep.specs.Nearest.{Nears, bound_of, next_of};

use lengths::{Point, Polyline, vertices};
use maths::{cos, radians};
use reach::is_beyond;
use sphere_lengths::way;
use vertices_within::{aside, far};

#[derive(Clone, Copy)]
pub struct Nearest {
    // The least distance so far.
    pub best: f64,
    // Past this no distance is within the slack of it.
    pub limit: f64,
    // No vertex before this is within the slack.
    pub from: usize,
    // The vertex before this is, and its distance,
    pub upto: usize,
    // the mark, is the least up to there.
    pub mark: f64,
}

impl Nearest {
    // By how many metres a vertex may be farther from a stop than the nearest.
    pub const SLACK: f64 = 25.0;
}

// With the vertex before `next`, whose distance is the way of a; so many are left.
fn nearer(near: Nearest, a: f64, next: usize, left: usize) -> Nearest
    requires { Beyond (bound_of near) near.limit }
    ensures next { result ≡ next_of near (way_of a) next result.limit }
    ensures beyond { Beyond (bound_of result) result.limit }
{
    if is_beyond(near.limit, a) {
        return near;
    }
    let d = way(a);
    if d < near.best {
        let most = d + Nearest::SLACK;
        if near.mark <= most {
            return Nearest {
                best: d,
                limit: far(most, left),
                ..near
            };
        }
        return Nearest {
            best: d,
            limit: far(most, left),
            from: near.upto,
            upto: next,
            mark: d,
        };
    }
    near
}

// Over the vertices from `at` on. A distance that is NaN is never the least, which is infinity where
// there is no other.
pub fn sweep(line: Polyline, stop: Point, at: usize) -> Nearest
    ensures { Nears stop (line_of line.entry.lat.now line.entry.lon.now) at result }
{
    let n = vertices(line);
    let c = cos(radians(stop.lat));
    let mut near = Nearest {
        best: f64::INFINITY,
        limit: f64::INFINITY,
        from: at,
        upto: at,
        mark: f64::INFINITY,
    };
    for k in at..n {
        near = nearer(near, aside(line, stop, c, k), k + 1, n - k - 1);
    }
    near
}
