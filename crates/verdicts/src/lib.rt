// The first refusal that applies: the least number whose cause is there. The rules of each table test its causes in turn.
#![tactic(auto)]

mod number; // number.rt: the same by numbers
mod verdict; // verdict.rt: the least refusal of the causes tested so far

pub use number::{all_named, named, tested};
pub use verdict::Verdict;
