// A date's refusal, day and weekday.
ghost use Rattle.std.specs.Prelude.{◌≡◌};
ghost use Rattle.days.specs.Days.{day_of};
ghost use Rattle.day_counts.specs.Weekdays.{weekday_of};
ghost use Rattle.days.specs.Read.{read_date_of, refusal_of};

use refusal_numbers::told_date;

// 0 for a date, or the refusal's number.
#[unsafe(no_mangle)]
pub extern "C" fn zebumorn_read_date(n: u32) -> u32
    ensures { result ≡ refusal_of (read_date_of n) }
{
    told_date(days::read_date(n))
}

// The day that a date is read as.
#[unsafe(no_mangle)]
pub extern "C" fn zebumorn_day_of(n: u32) -> i64
    ensures { result ≡ day_of n }
{
    days::day_of(n)
}

// The weekday of a date.
#[unsafe(no_mangle)]
pub extern "C" fn zebumorn_weekday_of(n: u32) -> u32
    ensures { result ≡ weekday_of (day_of n) }
{
    day_counts::weekday(days::day_of(n))
}
