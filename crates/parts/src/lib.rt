// Parts of a text, as slices of it, total: a place past its end is its end, and an empty text stands for none. What journey refs, route
// ids and stops' ids are taken apart with. The law that a caller cites is in proofs/Either.
#![tactic(auto)]

mod part; // part.rt: each part

pub use part::{after_last, before, first, from, if_long, past_place};
