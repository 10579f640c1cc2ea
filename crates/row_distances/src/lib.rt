// A row of the stop times as backfill sees it, and what is written into one that has no distance, in a unit. Which unit a trip's rows are written in, and how
// far along the line a stop is, is left to the callers.
#![tactic(auto)]

mod row; // row.rt: a row's distance, and the unit that it is written in

pub use row::{Distance, Unit, filled};
