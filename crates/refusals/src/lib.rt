// Refusals: why a call is refused, each with the number that C callers get. An operation answers a `Result` whose error is a `Refusal`; where several causes are there, it is the least.
//
// The definitions that the contracts cite are in specs/: `Refusal` has the numbers, `Answer` what an operation answers.
#![tactic(auto)]

mod refusal; // refusal.rt: the refusals

pub use refusal::{Refusal, number_or_zero, told};
