// Texts put together in a buffer, and the row of an id made of parts. `put` and `upper_into` require
// that the buffer has room, `find_joined` that the ids ascend and are short.
#![tactic(auto)]

mod key; // texts put together in a buffer, and the row of an id made of parts

pub use key::{find_joined, put, upper_into};
