// What is so of the static trip that is matched: it is one that the trip ids or the lines name. The law stands in proofs/;
// this crate has no function.
#![tactic(auto)]
