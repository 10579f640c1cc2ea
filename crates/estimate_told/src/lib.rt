// An estimate's answer as numbers, for C: one struct that says whether there is an estimate, what it is, and where its place is, or the refusal's
// number. It calls no operation.
#![tactic(auto)]

mod answer; // answer.rt: an answer as numbers

pub use answer::{PlaceTold, Told, tell};
