// Reads a case of the case language (docs/CASES.md) from standard input into pools that a program lends. As programs, its functions are proved safe and ending: what
// is read shows in what is answered.
#![tactic(auto)]

mod lines; // lines.rt: the lines of an input
mod text; // text.rt: the lines of a case

pub use case_answers::{Fault, print_fault};
pub use lines::Lines;
pub use text::{Reading, read};
