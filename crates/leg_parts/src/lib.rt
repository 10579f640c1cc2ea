// The parts of a leg that need no table: the rows of its two stops, the part of a line between two vertices, and which stop is drawn after the last. Where
// the stops are, and what they are drawn to, is left to `leg_points`.
#![tactic(auto)]

mod apart; // apart.rt: which stop is drawn after the last
mod ends; // ends.rt: the rows of the leg's two stops
mod line; // line.rt: the part of a line between two vertices

pub use apart::next;
pub use ends::{Ends, leg_ends};
pub use line::between;
