// Published: backfill of the trips of the lent tables, into two lent columns. It ports `backfill_shape_dist_traveled` of the Rust's routing/geometry.rs, trip by
// trip as `filled_trips` fills them.
#![tactic(auto)]

mod trips; // the trips, in table order

pub use trips::{backfill_trip, backfill_trips};
