// What the Rust's `f64::is_nan`, `abs`, `max`, `clamp(0.0, 1.0)` and `min` give.
ghost use Rattle.std.specs.Prelude.{◌≡◌};
ghost use Rattle.std.specs.Float.Ieee.{is_nan};
ghost use Rattle.ieee.specs.Number.{abs_of, max_of, clamp01_of, least_of};

pub fn is_nan(x: f64) -> bool
    ensures { result ≡ is_nan x }
{
    x.is_nan()
}

#[tactic(auto, using(crate::proofs::Sizes::abs_of_is))]
pub fn abs(x: f64) -> f64
    ensures { result ≡ abs_of x }
{
    x.abs()
}

// The greater of x and k, and k where x is NaN. `f64::max` leaves open which zero it gives of two.
#[tactic(auto, unfolding(crate::specs::Number::max_of))]
pub fn max_of(x: f64, k: f64) -> f64
    ensures { result ≡ max_of x k }
{
    if x > k { x } else { k }
}

#[tactic(auto, unfolding(crate::specs::Number::clamp01_of))]
pub fn clamp01(x: f64) -> f64
    ensures { result ≡ clamp01_of x }
{
    x.clamp(0.0, 1.0)
}

// The lesser of the two, and `best` where x is NaN. `f64::min` leaves open which zero it gives of two.
#[tactic(auto, unfolding(crate::specs::Number::least_of))]
pub fn least(best: f64, x: f64) -> f64
    ensures { result ≡ least_of best x }
{
    if x < best { x } else { best }
}
