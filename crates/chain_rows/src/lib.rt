// Which rows of a trip, and which ends, the chain of a leg has: those from the sequence of the one end to that of the other. Nothing is required. Which of their
// stops are kept stands in `chain_lines`.
#![tactic(auto)]

mod chain; // which rows and ends a leg's chain has

pub use chain::{Chain, chain_of};
