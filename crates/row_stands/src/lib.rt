// How a row of a table stands to what is asked of: before it, at it or after it. A date is taken as its day, which `days::ordinal_of` counts: 00010101 is 1. The
// search among rows that ascend stands in `row_lookup`.
#![tactic(auto)]

mod rows; // how rows stand to what is asked of

pub use rows::{Rows, stands};
