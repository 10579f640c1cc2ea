// Checks of columns of ids, and of texts: whether some byte is not printable, or some id empty. Which
// rows count is as in `columns`. No function requires anything of its caller.
//
// The definitions that the contracts cite are in specs/. The laws that a caller cites are in
// proofs/Passed (what is so of each id where a test is false).
#![tactic(auto)]

mod text; // bytes that are not printable; empty ids

pub use text::{bad_ids, bad_text};
