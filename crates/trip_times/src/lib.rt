// A static trip by its line and its first departure: `resolve_by_route_and_time` of the Rust's gtfs/siri_trip_map.rs, over how well each trip of
// the line fits.
#![tactic(auto)]

mod line; // the trip of a line that fits best
mod upper; // the same by a token in any case

pub use line::by_line;
pub use upper::by_token;
