// The row of a sailing's updates that serves best where there is no call: `pin_at_best_stop` of the Rust's rt/estimate.rs.
#![tactic(auto)]

mod best; // the row that serves best

pub use best::best_row;
