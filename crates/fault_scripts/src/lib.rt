// The words of a script that tools/faults wrote (crate test_checks): what those read so far have set, and their numbers into pools. As programs, its functions are proved
// safe and ending.
#![tactic(auto)]

mod put; // put.rt: numbers into pools
mod script; // script.rt: a script's words, and what those read so far have set

pub use script::{Fault, Place, Script, digit};
