// Along a leg a larger fraction gives no earlier place, whichever path is chosen, and the position of a walk is that of
// its place. The order of places and what is granted stand in specs/, the theorems and their lemmas in proofs/; this
// crate has no function.
#![tactic(auto)]
