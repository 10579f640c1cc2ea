// The vertex of a line that is nearest to a stop. It ports `nearest_idx` of the Rust's rt/estimate.rs.
// A line is lent as two columns, as in `lengths`. Nothing is required of the values: a distance that
// is NaN is nowhere near.
#![tactic(auto)]

mod vertex; // the search

pub use vertex::nearest_idx;
