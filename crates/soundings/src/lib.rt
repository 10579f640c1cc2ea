// Document 01's cases that hold by proof of the definitions, in one list with one theorem: `Soundings` in specs/, `soundings` in proofs/. This
// crate has no function.
#![tactic(auto)]
