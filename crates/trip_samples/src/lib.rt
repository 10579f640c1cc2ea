// The metres that a trip's distances stand for, of its first and last sample and its line in the tables. It ports `trip_shape_dist_affine` of the Rust's
// routing/geometry.rs. Reads are total, as in `ids`: past a pool's end a float is NaN.
#![tactic(auto)]

mod row; // the sample that a row is
mod trip; // the metres that a trip's distances stand for

pub use row::sample;
pub use trip::trip_shape_dist_affine;
