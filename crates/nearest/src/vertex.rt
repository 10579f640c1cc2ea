// The vertex of a line that is nearest to a stop, in degrees, as if latitude and longitude were a
// plane's. One pass finds the least square, whose root is the least distance, as a root never falls as
// its square grows; a second stops at the first vertex at that distance. Roots are taken of squares
// close to the least alone.
ghost use Rattle.std.specs.Prelude.{◌≡◌};
ghost use Rattle.std.specs.Float.Ieee.{le};
ghost use Rattle.lengths.specs.Line.{line_of};
ghost use Rattle.nearest.specs.Nearest.{nearest_of};
ghost use Rattle.nearest.specs.Squares.{square_of, squares_of, least_in, first_near, Far};
ghost use Rattle.roots.specs.Root.{root_of};

use ieee::least;
use lengths::{Point, Polyline, vertex, vertices};

// The square of the distance between two points.
#[tactic(auto, unfolding(crate::specs::Squares::square_of))]
fn square(p: Point, q: Point) -> f64
    ensures { result ≡ square_of p q }
{
    let y = p.lat - q.lat;
    let x = p.lon - q.lon;
    y * y + x * x
}

// The least square that is no NaN, and infinity where there is none.
#[tactic(auto, using(crate::proofs::Squares::least_next, crate::proofs::Squares::least_over))]
fn least_square(line: Polyline, stop: Point) -> f64
    ensures { result ≡ least_in (squares_of stop (line_of line.entry.lat.now line.entry.lon.now)) }
{
    let mut best = f64::INFINITY;
    for k in 0..vertices(line) {
        best = least(best, square(vertex(line, k), stop));
    }
    best
}

// A square from which on every root is above the distance, which is the root of this square; NaN where
// none is at hand.
fn far_from(square: f64, distance: f64) -> f64
    ensures { Far distance result }
{
    let more = square * 1.000000000000001;
    if distance < roots::root(more) {
        more
    } else {
        f64::NAN
    }
}

// The first vertex at a distance, or nearer; 0 where there is none.
#[tactic(auto, using(crate::proofs::Squares::near_hit, crate::proofs::Squares::near_miss, crate::proofs::Squares::near_over))]
fn first_near(line: Polyline, stop: Point, distance: f64, far: f64) -> usize
    requires { Far distance far }
    ensures { result ≡ first_near distance 0 (squares_of stop (line_of line.entry.lat.now line.entry.lon.now)) }
{
    for k in 0..vertices(line) {
        if is_near(square(vertex(line, k), stop), distance, far) {
            return k;
        }
    }
    0
}

// Whether the root of a square is no more than the distance.
fn is_near(square: f64, distance: f64, far: f64) -> bool
    requires { Far distance far }
    ensures { result ≡ le (root_of square) distance }
{
    !(square >= far) && roots::root(square) <= distance
}

// The first where two are as near, and 0 where no distance is a number.
pub fn nearest_idx(line: Polyline, stop: Point) -> usize
    ensures { result ≡ nearest_of (line_of line.entry.lat.now line.entry.lon.now) stop }
{
    let least = least_square(line, stop);
    let distance = roots::root(least);
    if distance < f64::MAX {
        first_near(line, stop, distance, far_from(least, distance))
    } else {
        0
    }
}
