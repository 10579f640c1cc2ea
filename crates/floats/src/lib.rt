// Laws on the order and the rounding of IEEE floats, over the format, on which every proof above leans. They stand in
// proofs/; this crate has no function.
#![tactic(auto)]
