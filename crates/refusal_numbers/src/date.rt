// A date.
ghost use Rattle.std.specs.Prelude.{◌≡◌};
ghost use Rattle.days.specs.Read.{refusal_of};

use refusals::Refusal;

/// 0 for a date, or the refusal's number.
pub fn told_date(read: Option<i64>) -> u32
    ensures { result ≡ refusal_of read }
{
    match read {
        Some(_) => 0,
        None => Refusal::Date.number(),
    }
}
