// The length of the way (x, y) in the plane.
ghost use Rattle.std.specs.Prelude.{◌≡◌};
ghost use Rattle.maths.specs.Trig.{hypot_of};

use roots::root;

#[tactic(auto, unfolding(crate::specs::Trig::hypot_of))]
pub fn hypot(x: f64, y: f64) -> f64
    ensures { result ≡ hypot_of x y }
{
    root(x * x + y * y)
}
