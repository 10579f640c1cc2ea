// A published operation over the lent tables: the trip that a journey stands for.
#![tactic(auto)]

mod matched; // matched.rt: the trip that a journey stands for

pub use matched::match_trip;
