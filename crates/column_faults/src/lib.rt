// The faults of one column that are about its rows or its numbers: too few or too many rows, a number too large, a moment out of time.
#![tactic(auto)]

mod size; // a column that is not so many rows of its pool
mod value; // numbers and moments out of bounds

pub use size::{ids_ill_sized, ill_sized};
pub use value::{out_of_time, too_large};
