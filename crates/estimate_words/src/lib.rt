// The words that an estimate is written by: the Board's line, as document 01 has it, and the place's (docs/CASES.md). It calls no operation. As programs, its
// functions are proved safe and ending.
#![tactic(auto)]

mod board; // board.rt: the Board's line
mod place; // place.rt: the place beside the estimate

pub use board::print_board;
pub use place::print_place;
