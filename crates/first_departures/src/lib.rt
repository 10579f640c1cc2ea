// The first departure of a sailing's updates: `trip_resolve_hint` of the Rust's rt/estimate.rs.
#![tactic(auto)]

mod first; // the first departure

pub use first::first_departure;
