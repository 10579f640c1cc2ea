// Floats and their bit patterns, for any pattern and any float, and the cast to f32, each equal to a definition.
#![tactic(auto)]

mod bits; // bits.rt: floats from and to their bit patterns
mod single; // single.rt: narrow, an f64 as the nearest f32

pub use bits::{bits_of_f32, bits_of_f64, f32_of, f64_of};
pub use single::narrow;
