// The static trip that a ref names by the aliases of the lent tables: part 2 of `resolve_static_trip` in gtfs/siri_trip_map.rs is `by_alias`.
#![tactic(auto)]

mod alias; // by the aliases of the ref

pub use alias::by_alias;
