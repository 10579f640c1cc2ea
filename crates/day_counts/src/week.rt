// The weekday of a day.
ghost use Rattle.std.specs.Prelude.{◌≡◌};
ghost use Rattle.day_counts.specs.Weekdays.{weekday_of};

// The weekday of any day, Monday 0. A remainder has its dividend's sign, so 7 is added; and 3, since
// day 0 is a Thursday.
pub fn weekday(day: i64) -> u32
    ensures { result ≡ weekday_of day }
{
    ((day % 7 + 10) % 7) as u32
}
