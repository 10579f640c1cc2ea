// The place on the part of a line between the vertices nearest to two stops. It ports
// `interpolate_polyline` of the Rust's rt/estimate.rs. A line is lent as two columns, as in `lengths`.
// Nothing is required of the values.
//
// The route and the way that it is sailed are chosen without the fraction, in `stop_routes`; then it is walked.
#![tactic(auto)]

mod polyline; // the part of a line between two stops

pub use polyline::{interpolate_polyline, spot_along};
