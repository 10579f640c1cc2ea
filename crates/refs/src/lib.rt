// Journey refs as texts: helpers of the Rust's gtfs/siri_trip_map.rs. Every part that they give is a slice of the text that they are given, and an empty one
// stands for none.
#![tactic(auto)]

mod journey; // the journey id of a ref

pub use journey::journey_id;
