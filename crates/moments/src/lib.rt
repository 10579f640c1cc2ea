// A moment of local time as the two counts that departures are compared with: the Rust reckons them in `resolve_by_route_and_time` of
// gtfs/siri_trip_map.rs. Nothing here reads the clock.
#![tactic(auto)]

mod moment; // a moment of local time as two counts

pub use moment::{today, yesterday};
