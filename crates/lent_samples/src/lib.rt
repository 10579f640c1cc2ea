// What samples that are lent tell: the unit that the first ratio is near, and the metres along a line that distances stand for. What is refused before stands in `calibrate`.
#![tactic(auto)]

mod affine; // affine.rt: the metres that distances stand for
mod scale; // scale.rt: the unit that the first ratio is near

pub use affine::lent_affine;
pub use scale::first_scale;
