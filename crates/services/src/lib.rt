// Which services run on a day, by the calendars, ranges and exceptions of the lent tables, as the GTFS Schedule reference has it:
// an exception that removes beats one that adds, which beats the range with its weekdays.
//
// Days are counted as `days::ordinal_of` counts them: 00010101 is 1.
#![tactic(auto)]

mod active; // whether a service runs on a day

pub use active::Calendar;
