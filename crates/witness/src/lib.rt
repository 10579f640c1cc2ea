// Document 01's case of the Board meets every hypothesis of demand 3, and its ferry is at two places at two clocks, so that the theorems
// of `astern` speak of something. By computing the definitions; this crate has no function.
#![tactic(auto)]
