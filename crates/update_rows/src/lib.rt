// What the rows of a sailing's updates say, over the lent tables: their times.
#![tactic(auto)]

mod update; // what a row says

pub use update::{is_set, is_timed, moment_at, moment_or, time};
