// The faults that lent columns may have: one function says whether a fault is there, over the five pools. Each kind of
// fault is tested by a pass over its column.
#![tactic(auto)]

mod column; // columns of dates, and of floats that may be infinite
mod fault; // the faults, and whether one is there

pub use fault::{Test, fails};
