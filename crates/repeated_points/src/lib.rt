// What is drawn of a journey's point after the last one drawn: nothing where it repeats that. Where the points are, and what they are written to, is left to
// `journey_points`.
#![tactic(auto)]

mod repeat; // repeat.rt: a point after the last one drawn

pub use repeat::next;
