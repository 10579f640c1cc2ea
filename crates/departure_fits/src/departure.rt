// How far a departure is from the count of seconds that it is compared with, and which of two is nearer. Seconds are signed.
ghost use Rattle.std.specs.Prelude.{◌≡◌, nat_abs, ◌-ℤ◌, ltb};
ghost use Rattle.departure_fits.specs.Departures.{since, away, near, nearer, if_runs};

use day_counts::delta;

// The moment asked of, in a service day: the day, as `days::ordinal_of` counts it, and the seconds from its beginning.
#[derive(Clone, Copy)]
pub struct Count {
    pub day: u32,
    pub second: u32,
}

// A departure, by its second, and the count of seconds that it is compared with.
#[derive(Clone, Copy)]
pub struct Fit {
    pub second: u32,
    pub count: u32,
}

// The seconds from its count to a departure: negative where it departs before.
fn seconds_since(s: u32, count: u32) -> i64
    ensures { result ≡ since s count }
{
    s as i64 - count as i64
}

// The same without its sign.
fn seconds_away(s: u32, count: u32) -> u64
    ensures { result ≡ nat_abs (since s count) }
{
    delta(s as i64, count as i64) as u64
}

// How far two departures, each taken from its count, are apart.
fn seconds_apart(s: u32, c: u32, t: u32, d: u32) -> u64
    ensures { result ≡ nat_abs (since s c -ℤ since t d) }
{
    delta(seconds_since(s, c), seconds_since(t, d)) as u64
}

// How far from its count a departure is; 901 seconds, which is too far, where there is none.
pub fn away_of(fit: Option<Fit>) -> u64
    ensures { result ≡ away fit }
{
    match fit {
        Some(fit) => seconds_away(fit.second, fit.count),
        None => 901,
    }
}

// Whether two departures are within two minutes of each other.
pub fn are_near(a: Option<Fit>, b: Option<Fit>) -> bool
    ensures { result ≡ near a b }
{
    match (a, b) {
        (Some(a), Some(b)) => seconds_apart(a.second, a.count, b.second, b.count) <= 120,
        _ => false,
    }
}

// Whether the second is strictly nearer.
fn is_nearer(a: Fit, b: Fit) -> bool
    ensures { result ≡ ltb (nat_abs (since b.second b.count)) (nat_abs (since a.second a.count)) }
{
    seconds_away(b.second, b.count) < seconds_away(a.second, a.count)
}

// The first, unless the second is strictly nearer or the only one.
pub fn nearer_of(a: Option<Fit>, b: Option<Fit>) -> Option<Fit>
    ensures { result ≡ nearer a b }
{
    match (a, b) {
        (Some(x), Some(y)) => Some(if is_nearer(x, y) { y } else { x }),
        _ => a.or(b),
    }
}

pub fn fit_if(there: bool, second: u32, count: u32) -> Option<Fit>
    ensures { result ≡ if_runs there second count }
{
    there.then_some(Fit { second, count })
}
