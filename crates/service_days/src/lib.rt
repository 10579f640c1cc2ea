// A published operation over the lent tables: whether a service runs on a date.
#![tactic(auto)]

mod running; // running.rt: whether a service runs on a date

pub use running::service_runs;
