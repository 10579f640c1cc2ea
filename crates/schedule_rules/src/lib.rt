// The rules of the stop times, and of where trips and stop times are placed.
#![tactic(auto)]

mod rules; // rules.rt: the rules of each part

pub use rules::{call_times, calls, placing};
