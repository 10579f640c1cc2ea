// How well a trip's first departure fits the moment asked of: a part of `resolve_by_route_and_time` of the Rust's gtfs/siri_trip_map.rs.
//
// The moment is given as two counts of seconds, from the beginning of its own service day and of the day before; how these are reckoned
// from a moment is not settled here.
#![tactic(auto)]

mod fit; // how well a trip's first departure fits

pub use fit::{Asked, Plan, Timetable};
