// The Board's line of a case of standard input: the case is read, the estimate is asked for, and its line is written (docs/CASES.md). As programs, its functions are
// proved safe and ending.
#![tactic(auto)]

mod case; // case.rt: a case of standard input, and the Board's line for it

pub use case::answer_case;
