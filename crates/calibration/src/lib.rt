// Calibration: which metres along a line a feed's distances stand for. It ports
// `shape_dist_affine` of the Rust's routing/geometry.rs. A line is lent as two columns, as in
// `lengths`. Nothing is required of the values: where a length or a distance is NaN there is no answer.
// The units, and two distances with their metres, are in `unit_scales`.
//
// The Rust is handed the lengths along the line, and reads two of them. Here they are summed again,
// from the left.
#![tactic(auto)]

mod affine; // metres as a multiple of a distance and a start, from two samples
mod samples; // samples in columns

pub use affine::{Sample, shape_dist_affine};
pub use samples::samples_affine;
