// The trip of a journey.
ghost use Rattle.std.specs.Prelude.{◌≡◌};
ghost use Rattle.refusals.specs.Answer.{answer_of, number_of};
ghost use Rattle.refusal_numbers.specs.Told.{row_or};

use refusals::Refusal;

/// 0, with the trip's row in `out` if there is one, or the refusal's number; else `out` stays as it was.
pub fn told_trip(matched: Result<Option<usize>, Refusal>, out: &mut usize) -> u32
    ensures { (result ≡ number_of (answer_of matched)) × (out.new ≡ row_or out.old (answer_of matched)) }
{
    match matched {
        Ok(Some(row)) => {
            *out = row;
            0
        }
        Ok(None) => 0,
        Err(refusal) => refusal.number(),
    }
}
