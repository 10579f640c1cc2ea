// Local time, in signed seconds from local midnight of day 0, as a service day: a day and a second of
// it. Counts of seconds may be negative.
ghost use Rattle.std.specs.Prelude.{◌≡◌};
ghost use Rattle.day_counts.specs.Service.{service_day_of, Splits, Near, apart};

#[derive(Clone, Copy)]
pub struct ServiceDay {
    // as read_date counts them
    pub day: i64,
    // 0 to 86,399
    pub second: i64,
}

impl ServiceDay {
    // How many seconds a day has.
    pub const LENGTH: i64 = 86400;

    // The day and second of a moment of local time, rounded down: one before day 0 is on a negative
    // day.
    pub fn at(local: i64) -> Self
        ensures value { result ≡ service_day_of local }
        ensures splits { Splits local result }
    {
        let day = local / Self::LENGTH;
        let second = local % Self::LENGTH;
        if second < 0 {
            return ServiceDay {
                day: day - 1,
                second: second + Self::LENGTH,
            };
        }
        ServiceDay { day, second }
    }
}

// How far two counts of seconds are apart, whichever is larger. Each is from -2^62 up to 2^62; moments
// of local time and schedule seconds stay below 2^32.
pub fn delta(a: i64, b: i64) -> i64
    requires { Near a b }
    ensures { result ≡ apart a b }
{
    if a < b { b - a } else { a - b }
}
