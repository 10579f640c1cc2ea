// A text's lines and the hexadecimal numbers in them, as the programs read them that replay samples of
// the Rust's answers. Nothing is read past the end of a text.
#![tactic(auto)]

mod hex; // numbers
mod line; // lines

pub use hex::number;
pub use line::line_end;
