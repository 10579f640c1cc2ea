// The place along a line by distances: between two marks in metres from its first vertex. It ports
// `interpolate_shape_by_dist` and `interpolate_shape_by_feed_dist` of the Rust's routing/geometry.rs.
// A line is lent as two columns, as in `lengths`. Nothing is required of the values.
//
// A span is chosen without the fraction, in `spans`; then it is walked. A calibration is two numbers a and b:
// a + b·d metres for a feed's distance d.
#![tactic(auto)]

mod interpolate; // the position at a fraction of the way between two distances

pub use interpolate::{interpolate_shape_by_dist, interpolate_shape_by_feed_dist, spot_over};
