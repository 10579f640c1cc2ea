// Ids in pools that a caller lends: their order and their lookup. No function reads past a pool's end,
// and none but `find` requires anything of its caller.
//
// The definitions that the contracts cite are in specs/. Laws that a caller cites are in proofs/:
// ByteOrder (the order is total), Search (what the first and the last number that passes a test are)
// and Rows (which row is found, and that neighbours suffice for the order).
#![tactic(auto)]

pub mod order; // texts by their bytes: which of two comes first
pub mod pool; // columns of numbers and of ids in the pools, read at any index
pub mod lookup; // the row of an id, by halves
pub mod byte; // single bytes: digits, letters, upper case

pub use byte::{Kind, alnum, digit, letter, of_kind, upper};
pub use lookup::find;
pub use order::compare;
pub use pool::{IdColumn, Lent, Span, cell, id, part, word};
