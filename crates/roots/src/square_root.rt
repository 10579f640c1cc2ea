// The square root, correctly rounded: the machine's own instruction.
ghost use Rattle.std.specs.Prelude.{◌≡◌};
ghost use Rattle.roots.specs.Root.{root_of};

// The square root of x: NaN below zero, and -0 of -0.
#[tactic(auto, using(crate::proofs::Machine::root_is))]
pub fn root(x: f64) -> f64
    ensures { result ≡ root_of x }
{
    x.sqrt()
}
