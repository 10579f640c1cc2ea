// Backfill of one trip of the lent tables, among the rows of all stop times: the core of `backfill` on its rows, the others as they were. Theorems are in
// proofs/Keeps.antt: a distance that is there is never written, and only rows of the trip are. Which trips, and into what, is in `trip_backfill`.
#![tactic(auto)]

mod trip; // trip.rt: one trip

pub use trip::backfill_in;
