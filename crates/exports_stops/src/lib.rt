// C names for the projection of stops: a stop from a cursor on, on a line that is lent alone, and the stops of a trip. Each answers what the
// function that it calls does, as a struct of numbers.
#![tactic(auto)]

mod step; // step.rt: a stop
mod trip; // trip.rt: a trip's stops

pub use step::zebumorn_project_stop;
pub use trip::zebumorn_project_trip;
