// The probe's answers about dates, services and matching. As programs, its functions are proved safe and ending.
#![tactic(auto)]

mod schedule; // schedule.rt: each of these queries

pub use schedule::{date, match_journey, runs};
