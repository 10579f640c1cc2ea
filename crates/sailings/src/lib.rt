// The static trip that the sailing of an estimate stands for. The Rust's `estimate_vehicle_pos` resolves the trip anew for each of its readers; here it is matched once. Nothing
// that is matched reads the clock.
#![tactic(auto)]

mod departure; // departure.rt: the first departure
mod trip; // trip.rt: the trip

pub use trip::sailing_trip;
