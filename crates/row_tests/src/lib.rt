// Tests of a row of the stop times: whether its stop is positioned, whether it is the call that is sailed to, and its sequence. The loops over a trip's rows stand
// in `previous` and `scheduled_runs`. Reads are total, as in `ids`.
#![tactic(auto)]

mod row; // which rows are positioned, and which are the call itself

pub use row::{from_sequence, placed, placed_target, with_sequence};
