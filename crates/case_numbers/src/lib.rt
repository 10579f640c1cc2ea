// The numbers of the case language that have no sign, as its tokens spell them.
#![tactic(auto)]

mod numerals; // numerals.rt: counts, bits and days

pub use numerals::{days, double, number, single};
