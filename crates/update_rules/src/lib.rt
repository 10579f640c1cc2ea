// The rules of what an estimate is asked of: updates and the sailing.
#![tactic(auto)]

mod rules; // rules.rt: the rules of each part

pub use rules::{arrivals, sailing, update_departures, updates};
