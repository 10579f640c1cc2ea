// Texts compared in two ways, byte for byte or as if they were in upper case: whether one begins with another, and where
// one first stands in another. No function requires anything of its caller.
//
// Laws that a caller cites are in proofs/: Folds (what is found in a text lies in it).
#![tactic(auto)]

mod fold; // each with `fold`, which says in which of the two ways

pub use fold::{place, starts};
