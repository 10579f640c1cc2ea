// Which call or leg the clock falls to: parts 1 and 2 of the Rust's `estimate_vehicle_pos` (rt/estimate.rs).
// Calls are two columns of moments, in order, a missing time already read from the other one.
#![tactic(auto)]

mod turn; // which call or leg the clock falls to

pub use turn::{Turn, moment, turn_of};
