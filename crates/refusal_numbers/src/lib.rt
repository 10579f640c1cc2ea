// Answers of the operations over tables as numbers, for C: each is told as the refusal's number, or 0 with the value written to what the caller lends. It calls no operation.
#![tactic(auto)]

mod date; // date.rt: a date
mod service; // service.rt: whether a service runs
mod trip; // trip.rt: the trip of a journey

pub use date::told_date;
pub use service::told_running;
pub use trip::told_trip;
