// Backfill: the distances that stop times lack, from the lengths along the trip's shape; the core, for the rows of one trip. It ports
// `backfill_shape_dist_traveled` of the Rust's routing/geometry.rs. A trip without any distance gets metres; one with some gets the
// others in the unit of those that it has, if two of them tell it. A distance that is there is never written (proofs/Keeps.antt).
// The walk along the line is in `filled_rows`.
#![tactic(auto)]

mod ends; // the first and the last sample of a trip's rows
mod rows; // the rows of one trip

pub use ends::Ends;
pub use rows::backfill_rows;
