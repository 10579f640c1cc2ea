// The metres that a distance stands for, as a multiple of it and a start.
ghost use Rattle.std.specs.Prelude.{◌≡◌};
ghost use Rattle.unit_scales.specs.Metres.{affine_between, is_scale, scaled, too_near};

use crate::scale::snap_unit_scale;
use ieee::abs;

// A distance d stands for a + b·d metres.
#[derive(Clone, Copy)]
pub struct Affine {
    pub a: f64,
    pub b: f64,
}

// Whether two numbers are less than `least` apart; NaN is not.
#[tactic(auto, unfolding(crate::specs::Metres::too_near))]
fn too_near(x: f64, y: f64, least: f64) -> bool
    ensures { result ≡ too_near x y least }
{
    abs(y - x) < least
}

// Whether b is finite and above zero.
fn is_scale(b: f64) -> bool
    ensures { result ≡ is_scale b }
{
    b > 0.0 && b < f64::INFINITY
}

// With a scale b: the distance d is at m metres.
#[tactic(auto, unfolding(crate::specs::Metres::scaled))]
fn scaled(b: f64, d: f64, m: f64) -> Option<Affine>
    ensures { result ≡ scaled b d m }
{
    if is_scale(b) {
        Some(Affine { a: m - b * d, b })
    } else {
        None
    }
}

// From two distances and their metres.
pub fn between(d0: f64, m0: f64, d1: f64, m1: f64) -> Option<Affine>
    ensures { result ≡ affine_between d0 m0 d1 m1 }
{
    if too_near(d0, d1, 1e-9) || too_near(m0, m1, 1.0) {
        None
    } else {
        scaled(snap_unit_scale((m1 - m0) / (d1 - d0)), d0, m0)
    }
}
