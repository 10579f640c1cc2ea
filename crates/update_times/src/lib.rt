// When the rows of a sailing's updates arrive and depart, over the lent tables.
#![tactic(auto)]

mod moment; // when rows arrive and depart

pub use moment::{fill_arrivals, fill_departures};
