// The chain of a leg as a line: the positions of the trip's stops between the sequences of its ends, a stop that lies at the one kept before it left out, with the
// ends' own positions first and last. It ports `build_stop_chain_polyline` of the Rust's rt/estimate.rs. The line is a list of points in specs/ alone; here are
// the stop of a row, and whether it is kept. The passes over all rows stand in `chain_vertices`.
#![tactic(auto)]

mod kept; // which stops are kept
mod stop; // the stops of rows between two sequences

pub use kept::{Last, after, keeps};
pub use stop::{no_point, point_or, stop_of};
