// The digits of a stop's text: a helper of the Rust's rt/estimate.rs. They are a slice of the text, and an empty one stands for none.
#![tactic(auto)]

mod stop; // stop.rt: the digits

pub use stop::stop_digits;
