// The points of a leg of a trip: the part of its shape between the vertices of the leg's two stops, or the whole shape; or the stops from the one to
// the other, drawn.
#![tactic(auto)]

mod leg; // leg.rt: the rows of a leg's trip
mod shape; // shape.rt: the part of the shape
mod stops; // stops.rt: the stops, where there is no shape

pub use leg::LegRows;
pub use shape::part;
pub use stops::draw_stops;
