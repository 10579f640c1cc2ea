// Floats as IEEE 754 has them: small functions of the Rust's standard library, each equal to a definition. The laws on the order and on rounding
// stand in the crate floats, the cast to f32 and bit patterns in float_bits, the square root in roots.
#![tactic(auto)]

mod number; // number.rt: is_nan, abs, max_of, clamp01, least

pub use number::{abs, clamp01, is_nan, least, max_of};
