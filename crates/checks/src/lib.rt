// The first refusal that applies to an operation of the timetable, or to the estimate, over all of each table that is lent to it.
#![tactic(auto)]

mod check; // check.rt: each operation's check

pub use check::{check_estimate, check_matching, check_service};
