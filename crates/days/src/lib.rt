// Dates: eight digits, yyyymmdd, as a day of the Gregorian calendar. The Rust has these from chrono's NaiveDate. Which services run on a day is
// not here.
//
// Laws that a caller cites are in proofs/: Ascending (dates are in the order of their days), Next (from a date to the next it is one day).
#![tactic(auto)]

mod date; // a date's digits as a day number

pub use date::{day_of, is_date, ordinal_of, read_date};
