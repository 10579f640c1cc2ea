// Published: the points of a journey, its legs' stitched one after another, into two lent columns. It ports `journey_geometry` of the Rust's
// routing/geometry.rs: a leg is transit or a walk, and has a range of the lent points; a walk of fewer than two points is drawn from its start to its end.
#![tactic(auto)]

mod check; // check.rt: the first refusal
mod journey; // journey.rt: the operation

pub use journey::journey_geometry;
