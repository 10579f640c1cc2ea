// As the clock goes on, its turn does not go back where the calls' times are in order, nor does the fraction of a leg.
// What turns are in order is in specs/, the theorems are in proofs/ (Says, Order, Fractions); this crate has no function.
#![tactic(auto)]
