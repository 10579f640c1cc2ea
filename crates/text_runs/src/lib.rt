// Bytes in texts: where one first and last stands, and how far a run of bytes of a kind goes, at the beginning or at the end. No function
// requires anything of its caller.
//
// Laws that a caller cites are in proofs/: Runs (what is found in a text lies in it).
#![tactic(auto)]

mod byte; // where a byte stands, and how far a run of bytes goes

pub use byte::{alnum_run, digit_run, digits_at, first_of, kept, last_of, run, trimmed};
