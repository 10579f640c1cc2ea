// The metres along a line that the distances of samples stand for.
ghost use Rattle.std.specs.Prelude.{◌≡◌};
ghost use Rattle.refusals.specs.Answer.{answer_of};
ghost use Rattle.tables.specs.Pools.{pools_of};
ghost use Rattle.calibrate.specs.Answers.{calibration_of};

use geometry_checks::check_calibration;
use ids::Lent;
use lent_samples::lent_affine;
use refusals::Refusal;
use tables::{Bounds, Samples};
use unit_scales::Affine;

// The metres that distances stand for, or none, or the first refusal that applies.
pub fn shape_dist_affine(lent: &Lent, s: Samples) -> Result<Option<Affine>, Refusal>
    ensures { answer_of result ≡ calibration_of (pools_of lent.now) s }
{
    check_calibration(lent, Bounds::chart(), s)?;
    Ok(lent_affine(lent, s))
}
