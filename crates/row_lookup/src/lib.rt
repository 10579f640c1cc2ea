// Rows of a table that ascend, found by halves; the contracts speak of rows alone.
#![tactic(auto)]

mod search; // rows of a table found by halves

pub use search::{row_of, seek};
