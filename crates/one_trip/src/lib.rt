// One trip asked of as a range of trips: where it ends. What is done with the range is left to the caller.
#![tactic(auto)]

mod one; // one.rt: the end of the range

pub use one::end_of;
