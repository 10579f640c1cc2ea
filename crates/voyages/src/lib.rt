// The estimate of a voyage: its record, and what it is at a clock. A voyage is what the tables say of a
// sailing without the clock: its calls, its legs with the path of each, where she is pinned without a call.
// Parts 1 to 3 of the Rust's `estimate_vehicle_pos` and `estimate_approaching_single` are the definition
// `outcome_at` in specs/; the code here makes the records, and `estimate` reads the tables.
#![tactic(auto)]

mod record; // record.rt: the record, and the place beside it

pub use record::{Estimate, Placed, at_stop, on_leg};
