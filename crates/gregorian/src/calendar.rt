// The Gregorian calendar by closed forms: no loop over years or months.
ghost use Rattle.std.specs.Prelude.{◌≡◌, false};
ghost use Rattle.gregorian.specs.Gregorian.{leap, month_days, days_before_month, days_before_year};

// Divisible by 4 and not by 100, or by 400.
pub fn is_leap(year: u32) -> bool
    ensures { result ≡ leap year }
{
    if year % 4 != 0 {
        return false;
    }
    if year % 100 != 0 {
        return true;
    }
    year % 400 == 0
}

// How many days a month has, in a year that leaps or not; 0 for a number that is no month.
pub fn month_days(month: u32, leaps: bool) -> u32
    ensures { result ≡ month_days leaps month }
{
    if month < 1 {
        return 0;
    }
    if 12 < month {
        return 0;
    }
    match month {
        2 => { if leaps { 29 } else { 28 } }
        4 | 6 | 9 | 11 => 30,
        _ => 31,
    }
}

// The days of the year before a month. The leap day is added here, outside the common year's
// numbers.
pub fn days_before_month(month: u32, leaps: bool) -> u32
    ensures { result ≡ days_before_month leaps month }
{
    if leaps {
        if 2 < month {
            return common_days_before(month) + 1;
        }
    }
    common_days_before(month)
}

// The same in a common year; past December it is the whole year.
fn common_days_before(month: u32) -> u32
    ensures { result ≡ days_before_month false month }
{
    match month {
        0 => 0,
        1 => 0,
        2 => 31,
        3 => 59,
        4 => 90,
        5 => 120,
        6 => 151,
        7 => 181,
        8 => 212,
        9 => 243,
        10 => 273,
        11 => 304,
        12 => 334,
        _ => 365,
    }
}

// The days of all years before a year, from year 1 on: 365 each, and one for each leap year.
pub fn days_before_year(year: u32) -> u64
    ensures { result ≡ days_before_year year }
{
    if year == 0 {
        return 0;
    }
    let past = (year - 1) as u64;
    365 * past + past / 4 - past / 100 + past / 400
}
