// Checks of columns of floats: whether some row that counts is at fault. Which rows count, and the checks of numbers, are in `columns`. No test
// requires anything of its caller.
//
// Laws that a caller cites are in proofs/: Finite (what is so of each row where a test is false).
#![tactic(auto)]

mod real; // positions off the globe; floats that are not finite

pub use real::{not_finite, off_globe};
