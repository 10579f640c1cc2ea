// The probe's answers about shapes, and about static trips on them. As programs, its functions are proved safe and ending.
#![tactic(auto)]

mod along; // along.rt: places along a shape, units, calibration
mod filled; // filled.rt: the distances of a trip after backfill
mod held; // held.rt: what a case holds in a row of a column
mod leg; // leg.rt: the points of a leg
mod lent; // lent.rt: the tables that geometry is lent
mod stops; // stops.rt: the vertices of a trip's stops

pub use along::{calibrate_trip, place_along, snap};
pub use filled::backfill;
pub use leg::draw_leg;
pub use stops::project;
