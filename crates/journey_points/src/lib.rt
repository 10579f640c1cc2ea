// The points of a journey's legs, stitched one after another into two columns: a point is drawn unless it is the last one drawn.
#![tactic(auto)]

mod stitch; // stitch.rt: the points of one leg and of all

pub use stitch::draw_legs;
