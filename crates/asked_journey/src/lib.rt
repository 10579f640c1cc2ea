// What the row of a journey says: its route, and its first departure in local time.
#![tactic(auto)]

mod asked; // its parts

pub use asked::{departs, local, route};
