// Where the calls of a sailing are: each as an end of a leg, and the outcome at it. Which call the clock falls to is in `plans`.
#![tactic(auto)]

mod call; // call.rt: at a call

pub use call::{at_call, call_end, departed};
