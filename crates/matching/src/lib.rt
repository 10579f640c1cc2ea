// The static trip that a journey of the realtime feed stands for: `resolve_static_trip` of the Rust's gtfs/siri_trip_map.rs. Nothing here
// reads the clock.
#![tactic(auto)]

mod whole; // every way in its turn

pub use whole::{Named, resolve};
