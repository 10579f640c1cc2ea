// Whether a journey id is a UUID: a helper of the Rust's gtfs/siri_trip_map.rs.
#![tactic(auto)]

mod uuid; // 36 bytes with dashes at their places, between spaces

pub use uuid::is_uuid;
