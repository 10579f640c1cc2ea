// The Gregorian calendar: leap years, and the days of months and years. The Rust has it from chrono's NaiveDate. Dates, and the days that they
// are, are not here.
//
// The calendar of the contracts, specs/Gregorian.antt, adds up years and months one by one.
#![tactic(auto)]

mod calendar; // leap years, the length of a month, the days before a month and before a year

pub use calendar::{days_before_month, days_before_year, is_leap, month_days};
