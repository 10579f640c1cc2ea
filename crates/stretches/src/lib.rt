// Where on a part of a line: at its first vertex, on one of its stretches, on the straight line between its ends or at its last vertex; and
// the position and the bearing drawn from that. A line is lent as two columns, as in `lengths`. Nothing is required: a vertex that a line has
// not reads as NaN. Which stretch a length along the line falls on is `first_stretch`.
//
// A position is drawn from the spot and the line alone, so that the two always agree.
#![tactic(auto)]

mod drawing; // the position and the bearing of a spot
mod spot; // where on a part of a line

pub use drawing::{Drawn, draw};
pub use spot::Spot;
