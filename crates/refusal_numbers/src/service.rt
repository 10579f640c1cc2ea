// Whether a service runs.
ghost use Rattle.std.specs.Prelude.{◌≡◌};
ghost use Rattle.refusals.specs.Answer.{answer_of, number_of};
ghost use Rattle.refusal_numbers.specs.Told.{runs_or};

use refusals::Refusal;

/// 0, with 1 in `out` where it runs and 0 where it does not, or the refusal's number with `out` as it was.
pub fn told_running(running: Result<bool, Refusal>, out: &mut usize) -> u32
    ensures { (result ≡ number_of (answer_of running)) × (out.new ≡ runs_or out.old (answer_of running)) }
{
    match running {
        Ok(true) => {
            *out = 1;
            0
        }
        Ok(false) => {
            *out = 0;
            0
        }
        Err(refusal) => refusal.number(),
    }
}
