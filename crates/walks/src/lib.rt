// The walk along the path of a leg of a matched trip, over the lent tables, at a fraction. It ports `interpolate_segment` of the Rust's
// rt/estimate.rs. Reads are total; all that is required is that the trip has at most 1,000,000 rows.
#![tactic(auto)]

mod walked; // the walk along it

pub use walked::walk;
