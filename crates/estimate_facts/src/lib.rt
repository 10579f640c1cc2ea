// What an estimate may take for granted where nothing is refused. The laws stand in proofs/; this crate has no function.
#![tactic(auto)]
