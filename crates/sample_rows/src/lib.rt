// Which rows of the stop times are samples, and the first and the last of a trip's that is one: a row that has a distance and whose stop has a position. What a
// sample is stands in `trip_samples`. Reads are total, as in `ids`.
#![tactic(auto)]

mod rows; // which rows are samples

pub use rows::{first_sample, last_sample};
