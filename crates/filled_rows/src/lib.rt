// The rows of a trip filled in a unit, on one walk along the line of its shape: one pass projects the stops and sums the lengths. Which unit that is, and
// whether anything is to be filled, is left to `backfill`.
#![tactic(auto)]

mod each; // each.rt: the rows, one by one
mod walk; // walk.rt: from stop to stop along the line, with the length to there

pub use each::fill;
