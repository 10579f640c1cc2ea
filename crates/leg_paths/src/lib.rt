// Which path a leg of a matched trip is drawn along, over the lent tables, chosen without the fraction. It ports the choice in `interpolate_segment` of the
// Rust's rt/estimate.rs. Reads are total; all that is required is that the trip has at most 1,000,000 rows.
#![tactic(auto)]

mod leg; // the shape and the chain of a leg
mod path; // which path a leg is drawn along

pub use leg::{leg_rows, leg_span};
pub use path::path_of;
