// Texts: where one stands in another, and whether two are equal. What a reference is taken apart with. No function requires anything of its
// caller.
//
// The definitions that the contracts cite are in specs/. Laws that a caller cites are in proofs/:
// Trims (how a text ends, and what is found in a text lies in it).
#![tactic(auto)]

mod text; // where something stands in a text

pub use text::{
    begins, contains, ends_with, equal_ignoring_case, first_place, first_place_ignoring_case, same,
    trimmed_text,
};
