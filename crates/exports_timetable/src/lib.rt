// The C names under which tools/oracle calls dates, services and matching. Each says no more than the function that it calls.
#![tactic(auto)]

mod dates; // dates.rt: a date's refusal, day and weekday
mod trips; // trips.rt: the trip of a journey, and whether a service runs

pub use dates::{zebumorn_day_of, zebumorn_read_date, zebumorn_weekday_of};
pub use trips::{zebumorn_match_trip, zebumorn_service_runs};
