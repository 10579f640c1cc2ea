// The globe: which positions are on it. Lengths on it are in `sphere_lengths`, bearings in `measure`.
#![tactic(auto)]

mod position; // position.rt: which positions are on the globe

pub use position::{both_on_globe, on_globe};
