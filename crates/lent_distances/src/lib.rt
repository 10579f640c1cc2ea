// The place between two distances along a line, the distances and the fraction being rows that are lent: in metres, or of a feed with its
// calibration. Refusals are not tested here.
#![tactic(auto)]

mod distances; // distances.rt: the place between two distances

pub use distances::{between_distances, between_feed_distances};
