// Published: the points of a leg of a trip, into two lent columns. It ports `leg_geometry` of the Rust's routing/geometry.rs, over the
// lent tables: the part of the trip's shape between the vertices of the leg's two stops, or the whole shape, or the stops from the one to the other.
#![tactic(auto)]

mod leg; // leg.rt: the operation

pub use leg::leg_geometry;
