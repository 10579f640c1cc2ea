// Demand 3 over the whole estimate, refusals included: the estimated ferry never goes astern. Beside it that
// a place agrees with its coordinates, and where silence falls. The theorems stand in proofs/ on `estimate_of`,
// the definition that the contract of `estimate` cites; this crate has no function.
#![tactic(auto)]
