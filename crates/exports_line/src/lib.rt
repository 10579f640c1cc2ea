// C names for a line that is lent alone: the unit that a ratio is near, the metres that samples stand for, the position at a fraction. Each
// answers what the function that it calls does, as a struct of numbers; nothing that is lent is written.
#![tactic(auto)]

mod metres; // metres.rt: calibration by samples
mod position; // position.rt: interpolation
mod scale; // scale.rt: the unit of a ratio

pub use metres::zebumorn_calibrate;
pub use position::zebumorn_interpolate;
pub use scale::zebumorn_snap_scale;
