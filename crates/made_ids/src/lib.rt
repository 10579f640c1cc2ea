// The static trip whose id is made of parts of a ref: part 3 of `resolve_static_trip` in gtfs/siri_trip_map.rs is `built`.
#![tactic(auto)]

mod made; // by an id made of parts of the ref

pub use made::built;
