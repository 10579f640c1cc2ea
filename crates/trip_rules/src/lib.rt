// The rules of the trips.
#![tactic(auto)]

mod rules; // rules.rt: the rules of the table

pub use rules::trips;
