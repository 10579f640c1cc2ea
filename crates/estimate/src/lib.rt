// The estimate, as document 01 publishes it. It ports `estimate_vehicle_pos` of the Rust's rt/estimate.rs over the lent tables: where a
// ferry is when her transponder is silent, how that was found, and the place that the coordinates are drawn from; silence where she is
// cancelled, has no updates, or has no call and cannot be pinned; else the first refusal that applies.
#![tactic(auto)]

mod operation;

pub use operation::estimate;
