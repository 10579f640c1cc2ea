// The operation.
ghost use Rattle.std.specs.Prelude.{◌≡◌};
ghost use Rattle.refusals.specs.Answer.{answer_of};
ghost use Rattle.tables.specs.Pools.{pools_of};
ghost use Rattle.interpolate.specs.Answers.{interpolation_of};

use geometry_checks::check_interpolation;
use ids::Lent;
use line_questions::Question;
use refusals::Refusal;
use stretches::Drawn;
use tables::{Along, Bounds};

// The position that the question asks for, or none, or the first refusal that applies.
pub fn interpolate(lent: &Lent, question: Question, a: Along) -> Result<Option<Drawn>, Refusal>
    ensures { answer_of result ≡ interpolation_of (pools_of lent.now) question a }
{
    check_interpolation(lent, Bounds::chart(), a)?;
    Ok(line_questions::lent(lent, question, a))
}
