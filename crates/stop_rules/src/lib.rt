// The rules of the stops.
#![tactic(auto)]

mod rules; // rules.rt: the rules of the table

pub use rules::stops;
