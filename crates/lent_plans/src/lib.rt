// The tables that a trip is found in by its line and its time, of all that are lent.
#![tactic(auto)]

mod plan; // plan.rt: their columns

pub use plan::plan_of;
