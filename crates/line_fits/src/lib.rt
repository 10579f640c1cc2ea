// The row of a line whose trip's first departure fits a moment best.
#![tactic(auto)]

mod line; // a line's rows, and the one that fits best

pub use line::{Line, fit_at, on_line};
