// The first and the last vertex of a line that is no farther from a stop than a bound, from a vertex on. A line is lent as two columns, as in
// `lengths`. A distance that is NaN is within no bound. No distance is stored, and a vertex that is surely too far is passed over by `reach`, without
// its distance. The least distance is found in `distance_sweep` and `least_distance`.
#![tactic(auto)]

mod limits; // a limit for the vertices that are left
mod near; // the vertices that are no farther from a stop than a bound

pub use limits::far;
pub use near::{aside, first_within, last_within};
