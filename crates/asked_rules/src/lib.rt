// The rules of what is asked: the journey, the service and the trip of a leg.
#![tactic(auto)]

mod rules; // rules.rt: the rules of each part

pub use rules::{journey, leg_asked, service};
