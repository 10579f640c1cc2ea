// The voyage that the lent tables come to, without the clock, and what it comes to at a turn of it. It ports what `estimate_vehicle_pos` of the
// Rust's rt/estimate.rs does once the calls are known: at a call, on a leg, towards the first call; and without a call, at the best stop.
#![tactic(auto)]

mod leg; // leg.rt: on a leg
mod pinned; // pinned.rt: without a call
mod turn; // turn.rt: with a call

pub use pinned::{pin, reported};
pub use turn::at_turn;
