// Checks of columns of numbers: whether some row of a column is at fault. Lent tables are
// columns, each a slice; a check of the tables asks these tests of them, one by one. No test requires
// anything of its caller. Rows that are flagged as missing are not tested: a row counts where `all` is
// true or its flag byte is not zero. A test of other columns hands what it asks of a row to `some_counted`.
//
// The definitions that the contracts cite are in specs/. Laws that a caller cites are in proofs/:
// Passed (what is so of each row where a test is false) and Scan (how a pass over rows shows it).
#![tactic(auto)]

mod number; // numbers that are too large, or not in a range; rows that end past a table's end
mod row; // whether some row is at fault, which rows count, and what a column of flags has in a row

pub use number::{ends_past, outside, reaches};
pub use row::{bit, counted, read, some_counted, some_row};
