// Counts of days and of seconds: local time as a day and a second of it, a day's weekday, and how far two counts of seconds are apart. The
// Rust has these from chrono's NaiveDate, and the day's length as `DAY_S` of gtfs/siri_trip_map.rs. Dates are not here.
//
// Laws that a caller cites are in proofs/: Weekdays (a weekday is below 7, and the next day has the next), Apart (what `delta` answers is
// never negative: it is the difference without its sign), Signed (what fits the machine's signed numbers).
#![tactic(auto)]

mod service; // a moment of local time as a service day, and how far two counts of seconds are apart
mod week; // a day's weekday

pub use service::{ServiceDay, delta};
pub use week::weekday;
