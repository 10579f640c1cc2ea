// The way that a line is sailed: in the order of its vertices or against it, and what it makes of a fraction.
#![tactic(auto)]

mod way; // which way a line is sailed

pub use way::{Way, turned};
