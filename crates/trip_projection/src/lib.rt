// Published: the projection of a trip's stops on its shape, into a lent column. It ports `project_stops_monotonic` of the Rust's
// routing/geometry.rs, over the lent tables.
#![tactic(auto)]

mod trip; // trip.rt: the operation

pub use trip::project_trip;
