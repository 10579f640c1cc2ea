// The probe's answer to each query by its kind, but for the place beside the estimate (docs/CASES.md). As programs, its functions are proved safe and ending.
#![tactic(auto)]

mod numbers; // numbers.rt: the maths, lengths and bearings
mod query; // query.rt: each query by its kind

pub use query::answer;
