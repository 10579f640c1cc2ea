// Trip keys as texts: helpers of the Rust's gtfs/siri_trip_map.rs. Every part that they give is a slice of the text that they are given, and an empty one
// stands for none.
#![tactic(auto)]

mod key; // a trip key less what stands at its ends

pub use key::{base, raw, tail, without_colons, without_loc, without_locs};
