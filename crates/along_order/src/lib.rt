// Along a fixed path a larger fraction gives no earlier place, whichever way the path is sailed, and
// a position is that of the place. The order of places stands in specs/, the theorems and their lemmas
// in proofs/ (Along, ByDistance, Agree); this crate has no function.
#![tactic(auto)]
