// The rules of shapes, of points, and of distances and numbers along them.
#![tactic(auto)]

mod rules; // rules.rt: the rules of each part

pub use rules::{measures, points, points_within, shapes};
