// Where the stop of a row is.
ghost use Rattle.std.specs.Prelude.{◌≡◌, ◌+◌, get_or};
ghost use Rattle.trip_rows.specs.Rows.{real_of, stop_point, stop_position, row_position};

use ids::{Lent, Span};
use lengths::Point;
use tables::{StopTimes, Stops};

// Row k of a column of a pool, or a blank past the pool's end.
pub fn row_or<T: Copy>(pool: &[T], span: Span, k: usize, blank: T) -> T
    ensures { result ≡ get_or pool.now (span.at + k) blank }
{
    let at = span.at as usize;
    if pool.len() <= at || pool.len() - at <= k {
        return blank;
    }
    pool[at + k]
}

// Row k of a column of reals, or NaN past the end of the pool.
pub fn real(reals: &[f64], span: Span, k: usize) -> f64
    ensures { result ≡ real_of reals.now span k }
{
    row_or(reals, span, k, f64::NAN)
}

// Where a stop's columns say that it is.
#[tactic(auto, unfolding(crate::specs::Rows::stop_point))]
pub fn stop_point(reals: &[f64], s: Stops, stop: usize) -> Point
    ensures { result ≡ stop_point reals.now s stop }
{
    let lat = s.lat;
    let lon = s.lon;
    Point {
        lat: real(reals, lat, stop),
        lon: real(reals, lon, stop),
    }
}

// Where a stop is.
#[tactic(auto, unfolding(crate::specs::Rows::stop_position))]
fn stop_position(lent: &Lent, s: Stops, stop: usize) -> Option<Point>
    ensures { result ≡ stop_position lent.now.bytes.now lent.now.reals.now s stop }
{
    let positioned = s.positioned;
    if columns::bit(lent.bytes, positioned, stop) == 0 {
        return None;
    }
    Some(stop_point(lent.reals, s, stop))
}

// Where the stop of a row of the stop times is.
#[tactic(auto, unfolding(crate::specs::Rows::row_position))]
pub fn row_position(lent: &Lent, s: Stops, c: StopTimes, row: usize) -> Option<Point>
    ensures { result ≡ row_position lent.now.bytes.now lent.now.words.now lent.now.reals.now s c row }
{
    let stop = c.stop;
    stop_position(lent, s, ids::cell(lent.words, stop, row) as usize)
}
