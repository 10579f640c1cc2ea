// Digits of the case language: what they spell, and a byte as two of them.
#![tactic(auto)]

mod digits; // digits.rt: what digits of a base spell
mod escapes; // escapes.rt: a byte as % and two digits

pub use digits::{digit, spelled};
pub use escapes::escape;
