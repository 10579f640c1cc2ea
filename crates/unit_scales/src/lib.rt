// The metres that a feed's distances stand for, by two of them and their metres along a line: a unit's, where the ratio is near one. It ports
// `snap_unit_scale` of the Rust's routing/geometry.rs. Nothing is required of the values: with a NaN there is no answer. Which metres
// two stops lie at is `calibration`.
#![tactic(auto)]

mod metres; // the metres of a distance, from two of them
mod scale; // the metres of a unit of distance

pub use metres::{Affine, between};
pub use scale::snap_unit_scale;
