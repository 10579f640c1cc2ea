// Points that are drawn one after another, each unless it repeats the last, into two lent columns, latitudes and longitudes. What is written, and
// what an operation that draws answers, is said here for `leg_geometry` and `journey_geometry` alike.
#![tactic(auto)]

mod column; // column.rt: rows of one column
mod point; // point.rt: a point in both columns

pub use column::put_rows;
pub use point::{Sheet, later};
