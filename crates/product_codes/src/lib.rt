// The product code of a line, in a route id: `line_product_code` of the Rust's gtfs/siri_trip_map.rs. A code is a slice of the text that it is in,
// and an empty one stands for none.
#![tactic(auto)]

mod code; // code.rt: the word after "LINE::", or else the first word that is a code

pub use code::product_code;
