// The stop that an update means, over the lent tables: `resolve_stop_coords` of the Rust's rt/estimate.rs. A stop is a row of
// the stops; one without a position is passed over, as it is there. No alias of a trip is tried.
#![tactic(auto)]

mod stop; // by its name or else by its sequence

pub use stop::stop_of;
