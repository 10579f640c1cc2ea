// atan for 0..1, atan2 and asin.
ghost use Rattle.std.specs.Prelude.{◌≡◌};
ghost use Rattle.arcs.specs.Arcs.{halve_of, atan_of, angle_of, turned_of, atan2_of, asin_of};

use ieee::abs;
use roots::root;
use std::f64::consts::{FRAC_PI_2, PI};

// The tangent of half the angle whose tangent is t.
#[tactic(auto, unfolding(crate::specs::Arcs::halve_of))]
fn halve(t: f64) -> f64
    ensures { result ≡ halve_of t }
{
    t / (1.0 + root(1.0 + t * t))
}

// The angle whose tangent is t, for a t in 0..1.
pub fn atan(t: f64) -> f64
    ensures { result ≡ atan_of t }
{
    let s = halve(halve(t));
    let z = s * s;
    let a11 = -0.043478260869565216;
    let a10 = a11 * z + 0.047619047619047616;
    let a9 = a10 * z + -0.05263157894736842;
    let a8 = a9 * z + 0.058823529411764705;
    let a7 = a8 * z + -0.06666666666666667;
    let a6 = a7 * z + 0.07692307692307693;
    let a5 = a6 * z + -0.09090909090909091;
    let a4 = a5 * z + 0.1111111111111111;
    let a3 = a4 * z + -0.14285714285714285;
    let a2 = a3 * z + 0.2;
    let a1 = a2 * z + -0.3333333333333333;
    let a0 = a1 * z + 1.0;
    4.0 * (s * a0)
}

// The angle of a right triangle, for the sizes a of y and b of x.
#[tactic(auto, unfolding(crate::specs::Arcs::angle_of))]
fn angle(a: f64, b: f64) -> f64
    ensures { result ≡ angle_of a b }
{
    if b < a {
        FRAC_PI_2 - atan(b / a)
    } else {
        atan(a / b)
    }
}

// The angle a of the sizes, brought to the quarter in which the point (x, y) lies.
#[tactic(auto, unfolding(crate::specs::Arcs::turned_of))]
fn turned(y: f64, x: f64, a: f64) -> f64
    ensures { result ≡ turned_of y x a }
{
    let b = if x < 0.0 { PI - a } else { a };
    if y < 0.0 { -b } else { b }
}

#[tactic(auto, using(crate::proofs::Unordered::atan2_of_is))]
pub fn atan2(y: f64, x: f64) -> f64
    ensures { result ≡ atan2_of y x }
{
    if y.is_nan() || x.is_nan() {
        f64::NAN
    } else if y == 0.0 && x == 0.0 {
        0.0
    } else {
        turned(y, x, angle(abs(y), abs(x)))
    }
}

#[tactic(auto, unfolding(crate::specs::Arcs::asin_of))]
pub fn asin(s: f64) -> f64
    ensures { result ≡ asin_of s }
{
    atan2(s, root(1.0 - s * s))
}
