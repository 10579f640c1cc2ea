// Published: interpolation alone. A line is lent as points; with it the ends of a leg, distances and numbers, as the question asks. Each gives the
// first refusal of 1, 2, 3 and 8 that applies; numbers may be infinite, and are followed.
#![tactic(auto)]

mod operation; // operation.rt: the operation

pub use operation::interpolate;
