// The static stop before a call: the Rust's `previous_static_stop` (rt/estimate.rs). Reads are total, as in `ids`.
#![tactic(auto)]

mod before; // the row before a call
mod search; // the first and the last row of a trip that passes a test

pub use before::previous_row;
