// The static trip that a ref names, by the trip ids and the aliases of the lent tables: parts 1, 2 and 3 of `resolve_static_trip` in
// gtfs/siri_trip_map.rs are `by_id`.
#![tactic(auto)]

mod trip; // by its id, by its aliases, by an id made of its parts

pub use trip::by_id;
