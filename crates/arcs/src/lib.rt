// The stand-ins for the arcs of the maths library, in f64, one rounding an operation, in the order in which document 01 writes them. Sine and its
// kin, and the series, are in `maths`.
//
// Laws that a caller cites are in proofs/: Bounds (how large the answers can get), Fits (that they fit).
#![tactic(auto)]

mod arc; // arc.rt: atan for 0..1, atan2, asin

pub use arc::{asin, atan, atan2};
