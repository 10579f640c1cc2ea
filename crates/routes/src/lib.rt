// The place along a line by a fraction of its own length, or of a part's. It ports
// `interpolate_along_vertices` of the Rust's rt/estimate.rs. A line is lent as two columns, as in
// `lengths`. Nothing is required of the values.
//
// A route is chosen without the fraction; then it is walked. Its length is kept with it, so that it is
// summed once.
#![tactic(auto)]

mod route; // a part of a line with its length, walked by a fraction

pub use route::{Route, along, interpolate_along_vertices, route_of};
