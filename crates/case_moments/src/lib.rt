// The signed numbers of the case language, as its tokens spell them.
#![tactic(auto)]

mod sign; // sign.rt: moments and delays

pub use sign::{delay, moment};
