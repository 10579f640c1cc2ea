// Along a leg's chain whose kept stops are marked: its length, the spot at a fraction of a route over it, and the position there. Each is one pass over
// the marks in the chain's direction, and looks at a row once. It ports `interpolate_along_vertices` of the Rust's rt/estimate.rs, on a chain.
#![tactic(auto)]

mod drawing; // where a chain is at a fraction, and the position there
mod passes; // the length of a chain, and the stretch that a target meets

pub use drawing::{along, drawn};
pub use passes::length_of;
