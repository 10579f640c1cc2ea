// The estimated ferry never goes astern: as the clock goes on, the place of a voyage's estimate is no
// earlier, and silence stays silence. The theorems stand in proofs/; this crate has no function.
#![tactic(auto)]
