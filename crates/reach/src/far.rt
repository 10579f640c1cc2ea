// The limit past which no way is as short as a bound.
ghost use Rattle.std.specs.Prelude.{◌≡◌};
ghost use Rattle.reach.specs.Reach.{Beyond, is_beyond, low_of};

use roots::root;
use sphere_lengths::Globe;

// How long a way is at least whose sine of half its angle is s, for an s of at most an eighth.
fn low(s: f64) -> f64
    ensures { result ≡ low_of s }
{
    2.0 * Globe::RADIUS * (4.0 * (s / 1.0 / 2.125 / 2.125 * 0.95703125))
}

// A limit past which, as far as a sixty-fourth, no way is as short as `most`. The guess is a little
// more than `low` needs; infinity, past which there is nothing, is where it fails.
pub fn limit(most: f64) -> f64
    ensures { Beyond most result }
{
    let s = most / 10800000.0;
    let a = s * s;
    if a >= 0.0 && most < low(root(a)) {
        a
    } else {
        f64::INFINITY
    }
}

// Whether a is past the limit, and no further than a sixty-fourth: about 1,600 kilometres.
#[tactic(auto, unfolding(crate::specs::Reach::is_beyond))]
pub fn is_beyond(limit: f64, a: f64) -> bool
    ensures { result ≡ is_beyond limit a }
{
    limit < a && a <= 0.015625
}
