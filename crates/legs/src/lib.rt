// A leg: the way from a stop to the next call. Its path (`paths`) is walked; the walk gives the place, the
// position with bearing, and the status. It ports `interpolate_segment` of the Rust's rt/estimate.rs, by
// value: what reads lines and tables stands in the crates above. Lines are lists of points in specs/;
// nothing is required.
#![tactic(auto)]

mod place; // where on a leg
mod walk; // what a walk gives

pub use place::{Place, place_of};
pub use walk::{Walked, at_end, at_start, on_path};
