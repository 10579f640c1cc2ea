// The route from a stop to the next on a line: over the part between the vertices nearest to them, and the way that it is sailed. There is none
// where the part is under a metre or roundabout. Nothing is required of the values. Walking it by a fraction is `polylines`.
#![tactic(auto)]

mod between; // the route from a stop to the next

pub use between::{Routed, route_between};
