// The seconds of the scheduled run between two of a trip's sequences: the Rust's `scheduled_run_secs` (rt/estimate.rs). Reads are total, as in `ids`.
#![tactic(auto)]

mod run; // the scheduled run
mod sequence; // the last row of a trip with a sequence

pub use run::run_seconds;
