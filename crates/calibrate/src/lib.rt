// The published operations of calibration alone, over what is lent: the unit that a ratio is near, and the
// metres along a line that samples' distances stand for. Each gives the first refusal of 1, 2, 3 and 8 that applies.
#![tactic(auto)]

mod affine; // affine.rt: the metres that samples' distances stand for
mod scale; // scale.rt: the unit that a ratio is near

pub use affine::shape_dist_affine;
pub use scale::snap_unit_scale;
