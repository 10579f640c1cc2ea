// Whether a target is on a stretch, and which fraction of it is behind the target.
ghost use Rattle.std.specs.Prelude.{◌≡◌};
ghost use Rattle.first_stretch.specs.Search.{meets, fraction_of};
ghost use Rattle.routes.specs.Route.{nano};

use ieee::{clamp01, max_of};

// Whether a target is on the stretch from the length `from` to the length `to`, or no more than 1e-9 past it.
pub fn met(target: f64, from: f64, to: f64) -> bool
    ensures { result ≡ meets nano target from to }
{
    if target >= from {
        return target <= to + 0.000000001;
    }
    false
}

// Which fraction of that stretch is behind the target. A stretch counts as a millionth of a metre at
// least.
pub fn fraction(target: f64, from: f64, to: f64) -> f64
    ensures { result ≡ fraction_of target from to }
{
    clamp01((target - from) / max_of(to - from, 0.000001))
}
