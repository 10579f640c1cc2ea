// The tables that a trip's course is read from, with the line of a shape, flags and distances of their columns. Which rows are samples stands in `sample_rows`. Reads
// are total, as in `ids`: past a pool's end a float is NaN.
#![tactic(auto)]

mod course; // the tables that a trip's course is read from, and its line
mod flags; // flags of a column
mod read; // distances of a column

pub use course::{Course, shape_lat, shape_lon};
pub use flags::flagged;
pub use read::dist;
