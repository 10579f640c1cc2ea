// What may be asked of a line that is lent, and the position that each question asks for. Refusals are not tested here: `interpolate` does that first.
#![tactic(auto)]

mod asked; // asked.rt: each question, of what is not refused

pub use asked::{Question, lent};
