// The rules of what services are looked up by: the calendar tables.
#![tactic(auto)]

mod rules; // rules.rt: the rules of each part

pub use rules::{calendars, exceptions, ranges};
