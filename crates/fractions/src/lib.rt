// How much of a leg has gone by: the fractions of the Rust's `estimate_vehicle_pos` and of its `estimate_approaching_single` (rt/estimate.rs).
#![tactic(auto)]

mod fraction; // how much of a leg has gone by

pub use fraction::{approach_fraction, incoming, leg_fraction};
