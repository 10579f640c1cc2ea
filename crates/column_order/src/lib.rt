// A table's rows by their key: which of two comes first, and whether they ascend. No function requires
// anything of its caller.
//
// The definitions that the contracts cite are in specs/. The laws that a caller cites are in
// proofs/Sorted (rows that are not unsorted ascend) and proofs/Keys (the first part that differs
// decides).
#![tactic(auto)]

mod order; // rows by their key: which of two comes first, and whether all ascend

pub use order::{Key, compare_rows, numbers, unsorted};
