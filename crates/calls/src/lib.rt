// The calls that the updates of a sailing come to, over the lent tables (`call_point` of the Rust's rt/estimate.rs).
#![tactic(auto)]

mod call; // which rows are calls, and their stops
mod stop; // the stop that a row means

pub use call::collect;
pub use stop::{Reported, update_stop};
