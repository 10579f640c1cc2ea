// The token of a line, of a route id or of a journey ref, as a text: helpers of the Rust's gtfs/siri_trip_map.rs. A token is a slice of the text
// that it is in, and an empty one stands for none.
#![tactic(auto)]

mod token; // token.rt: the tokens

pub use token::{journey_token, token_of};
