// What is asked of a leg's chain: its length, and where it is at a fraction of it. One pass over the trip's rows marks the stops that are kept, and each
// question is a pass over the marks.
#![tactic(auto)]

mod questions; // a chain's length, and where it is at a fraction of it

pub use questions::{OnChain, chain_route, chain_walk};
