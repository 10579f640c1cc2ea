// The words of a line of the case language (docs/CASES.md): the form that its first word names, how often that form may stand, and one word after it into a row of a
// column of the pools. As programs, its functions are proved safe and ending: what is read shows in what is answered.
#![tactic(auto)]

mod name; // name.rt: the forms by their names, and how often each may stand
pub mod token; // token.rt: one token of a line into a row of a column
mod why; // why.rt: why a line is no form

pub use name::Form;
pub use why::Why;
