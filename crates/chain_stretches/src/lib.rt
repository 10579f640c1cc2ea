// Two points of a leg's chain, the one after the other: whether they lie at one place, whether a target is on the stretch between them, and the position that is
// drawn there. All is by value, and nothing is required. Which points a chain has stands in `chain_lines`, and the passes along it in `chain_spots`.
#![tactic(auto)]

mod close; // whether two points lie at one place
mod drawing; // the position drawn on two points
mod search; // whether a target is on a stretch, and the fraction behind it

pub use close::near;
pub use drawing::on_two;
pub use search::{fraction, met};
