// The keys of a stop's name, and the stop that a key stands for: what `resolve_stop_coords` of the Rust's rt/estimate.rs looks up. `stop_names` takes
// them in their turn.
#![tactic(auto)]

mod key; // the stop of a key, and of the keys that begin with the feed

pub use key::StopIds;
