// The stand-ins for the maths library: sine and its kin in f64, one rounding an operation, in the
// order in which document 01 writes them, so that they give the same bits on every machine. Each is
// equal to a definition of specs/, where the coefficients are given by their rule.
#![tactic(auto)]

mod angle; // angle.rt: radians, degrees
mod plane; // plane.rt: hypot
mod sine; // sine.rt: sin, cos

pub use angle::{degrees, radians};
pub use plane::hypot;
pub use sine::{cos, sin};
