// The first refusal that applies to an operation of geometry, over all of each table that is lent to it: projection and backfill, leg drawing,
// interpolation and calibration.
#![tactic(auto)]

mod check; // check.rt: each operation's check

pub use check::{check_calibration, check_geometry, check_interpolation, check_leg, geometry};
