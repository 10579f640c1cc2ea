// The static trip of the lent tables whose id a text is: part 1 of `resolve_static_trip` in gtfs/siri_trip_map.rs is `by_key`. A trip is the
// number in a row of the trip ids.
#![tactic(auto)]

mod trip; // by its id

pub use trip::{by_key, trip_at};
