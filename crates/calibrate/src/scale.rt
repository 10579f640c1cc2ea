// The unit that a ratio is near.
ghost use Rattle.std.specs.Prelude.{◌≡◌};
ghost use Rattle.refusals.specs.Answer.{answer_of};
ghost use Rattle.tables.specs.Pools.{pools_of};
ghost use Rattle.calibrate.specs.Answers.{snapped_of};

use geometry_checks::check_calibration;
use ids::Lent;
use lent_samples::first_scale;
use refusals::Refusal;
use tables::{Bounds, Samples, cut};

// The metres of the unit that the ratio is near, or the ratio itself. The ratio is the first of the numbers
// that are lent.
pub fn snap_unit_scale(lent: &Lent, s: Samples) -> Result<Option<f64>, Refusal>
    ensures { answer_of result ≡ snapped_of (pools_of lent.now) s }
{
    check_calibration(lent, Bounds::chart(), s)?;
    Ok(first_scale(cut(lent.reals, s.numbers)))
}
