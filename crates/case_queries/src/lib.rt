// The queries of the case language (docs/CASES.md): what a line asks of a case. As programs, its functions are proved safe and ending: what is read shows in what is
// answered.
#![tactic(auto)]

mod query; // query.rt: each query by its name and tokens

pub use query::{Query, query_of};
