// How far a way reaches at least: a test on what the haversine takes the root of, which says without
// root or arc sine that a length is more than a bound. A search for near vertices passes over the
// far ones by it.
//
// The limit is a guess that is tried: `limit` answers it only where `low`, the least way that the arc
// sine's stand-in can make of the guess, is more than the bound. The law behind it is in
// proofs/Low.antt.
#![tactic(auto)]

mod far; // the limit for a bound, and whether something is past it

pub use far::{is_beyond, limit};
