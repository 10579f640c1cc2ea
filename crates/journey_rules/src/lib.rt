// What is lent of a journey, and the rules of it.
#![tactic(auto)]

mod lent; // lent.rt: what is lent
mod rules; // rules.rt: the rules of what is lent

pub use lent::JourneyLegs;
pub use rules::{ends, legs};
