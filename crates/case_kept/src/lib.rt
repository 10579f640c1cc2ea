// What reading a case keeps for its end: the queries so far. As programs, its functions are proved safe.
#![tactic(auto)]

mod queries; // queries.rt: the queries, each with a newline after it

pub use queries::kept;
