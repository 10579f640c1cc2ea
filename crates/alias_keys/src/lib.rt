// The keys by which a ref is looked up in the aliases of the lent tables, and the trip that one of them stands for: `siri_ref_lookup_keys` in
// gtfs/siri_trip_map.rs makes the keys.
#![tactic(auto)]

mod key; // the trip of a key, of a UUID's keys, of a local journey's keys

pub use key::TripIds;
