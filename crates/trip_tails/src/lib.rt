// The static trip that a ref names by its tail, by the trip ids of the lent tables: part 5 of `resolve_static_trip` in gtfs/siri_trip_map.rs.
#![tactic(auto)]

mod tail; // by the tail of the ref

pub use tail::by_tail;
