// The check of a journey.
ghost use Rattle.std.specs.Prelude.{◌≡◌};
ghost use Rattle.refusals.specs.Answer.{answer_of, number_of};
ghost use Rattle.tables.specs.Pools.{pools_of};
ghost use Rattle.verdicts.specs.Refuse.{refusal_of};
ghost use Rattle.journey_rules.specs.Causes.{journey_causes};

use ids::Lent;
use journey_rules::{JourneyLegs, ends, legs};
use refusals::Refusal;
use tables::Bounds;
use verdicts::Verdict;

// The legs, the ends of walks, and the points.
pub(crate) fn check_journey(lent: &Lent, b: Bounds, j: JourneyLegs) -> Result<(), Refusal>
    ensures { number_of (answer_of result) ≡ refusal_of (pools_of lent.now) (journey_causes b j) }
{
    let legs = legs(Verdict::new(), lent, b, j, j.points.lat.n);
    let ends = ends(legs, lent, j);
    shape_rules::points(ends, lent, j.points).finish()
}
