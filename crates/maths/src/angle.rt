// Degrees to radians and back: times the quotients of pi and 180, each rounded once.
ghost use Rattle.std.specs.Prelude.{◌≡◌};
ghost use Rattle.maths.specs.Trig.{radians_of, degrees_of};

#[tactic(auto, unfolding(crate::specs::Trig::radians_of))]
pub fn radians(x: f64) -> f64
    ensures { result ≡ radians_of x }
{
    x.to_radians()
}

#[tactic(auto, unfolding(crate::specs::Trig::degrees_of))]
pub fn degrees(x: f64) -> f64
    ensures { result ≡ degrees_of x }
{
    x.to_degrees()
}
