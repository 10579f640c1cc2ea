// An f64 as the nearest f32: the Rust's `as f32`.
ghost use Rattle.std.specs.Prelude.{◌≡◌};
ghost use Rattle.float_bits.specs.Single.{narrow_of};

use std::num::nearest_f64_to_f32_with_nan;

#[tactic(auto, using(crate::proofs::Shorter::narrow_is))]
pub fn narrow(x: f64) -> f32
    ensures { result ≡ narrow_of x }
{
    nearest_f64_to_f32_with_nan(x)
}
