// Eight digits, yyyymmdd, as a day number: day 0 is 19700101, and days before it are negative.
// There is no way back from a day to its date.
ghost use Rattle.std.specs.Prelude.{◌≡◌};
ghost use Rattle.days.specs.Days.{is_date, ordinal, day_of};
ghost use Rattle.days.specs.Read.{read_date_of};

use gregorian::{days_before_month, days_before_year, is_leap, month_days};

// Reads n = yyyymmdd, from 00010101 to 99991231.
pub fn read_date(n: u32) -> Option<i64>
    ensures { result ≡ read_date_of n }
{
    if is_date(n) {
        return Some(day_of(n));
    }
    None
}

// A year from 1 to 9999, a month from 1 to 12, and a day of that month.
pub fn is_date(n: u32) -> bool
    ensures { result ≡ is_date n }
{
    let year = n / 10000;
    let month = n / 100 % 100;
    let day = n % 100;
    if year < 1 {
        return false;
    }
    if 9999 < year {
        return false;
    }
    if month < 1 {
        return false;
    }
    if 12 < month {
        return false;
    }
    if day < 1 {
        return false;
    }
    day <= month_days(month, is_leap(year))
}

// The place of a date in the count in which 00010101 is 1. Of digits that are no date it says nothing useful: see is_date.
pub fn ordinal_of(n: u32) -> u64
    ensures { result ≡ ordinal n }
{
    let year = n / 10000;
    let month = n / 100 % 100;
    let day = n % 100;
    let past = days_before_month(month, is_leap(year)) as u64;
    days_before_year(year) + past + day as u64
}

// The day number of a date, likewise.
pub fn day_of(n: u32) -> i64
    ensures { result ≡ day_of n }
{
    ordinal_of(n) as i64 - 719163
}
