// Whether a range of services has a day: both its ends are included, and the day's weekday is one of the range's. Whether a service runs stands in `services`.
//
// Days are counted as `days::ordinal_of` counts them: 00010101 is 1.
#![tactic(auto)]

mod range; // whether a range has a day

pub use range::in_range;
