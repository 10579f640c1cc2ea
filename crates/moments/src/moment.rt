// A moment of local time as the two counts that departures are compared with.
ghost use Rattle.std.specs.Prelude.{◌≡◌};
ghost use Rattle.moments.specs.Moments.{today_of, yesterday_of, InReach};

use day_counts::ServiceDay;
use departure_fits::Count;

// The moment in its own service day, whose ordinal is 719,163 more than its number.
pub fn today(local: i64) -> Count
    requires { InReach local }
    ensures { result ≡ today_of local }
{
    let at = ServiceDay::at(local);
    Count {
        day: (at.day + 719163) as u32,
        second: at.second as u32,
    }
}

// The same moment in the service day before.
pub fn yesterday(local: i64) -> Count
    requires { InReach local }
    ensures { result ≡ yesterday_of local }
{
    let t = today(local);
    Count {
        day: t.day - 1,
        second: t.second + ServiceDay::LENGTH as u32,
    }
}
