// The projection of a trip's stops on a line: each lies at one of its vertices, and none before an
// earlier stop's. It ports `project_stops_monotonic` of the Rust's routing/geometry.rs. A line is lent
// as two columns, as in `lengths`. Nothing is required of the values, as in `near_vertex`.
//
// The definitions that the contracts cite are in specs/. Laws that a caller cites are in proofs/: Order
// (each stop with a position gets a vertex, in range and none before an earlier stop's) and Split (a
// trip split after any stop projects as the whole).
#![tactic(auto)]

mod cursor; // where a projection has got to, handed a stop and handed back

pub use cursor::{Cursor, Passed, Step};
