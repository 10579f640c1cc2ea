// How far a departure of the schedule is from the moment asked of: a part of `resolve_by_route_and_time` of the Rust's gtfs/siri_trip_map.rs.
//
// A departure counts its seconds from the beginning of a service day. It is compared with a count of seconds of the moment, in its own
// day or in the day before; how these are reckoned, and whether the trip runs, is not settled here.
#![tactic(auto)]

mod departure; // a departure and its count, and which of two is nearer

pub use departure::{Count, Fit, are_near, away_of, fit_if, nearer_of};
