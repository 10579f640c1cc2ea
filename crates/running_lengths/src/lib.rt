// The lengths along a line, from its first vertex to each. It ports `shape_cumulative_distances` of the Rust's routing/geometry.rs. A line is lent as
// two columns, as in `lengths`. No length is stored: a caller asks for the one at the vertex that it needs.
//
// Laws that a caller cites are in proofs/Running: the Rust's list of lengths has the length to each vertex; from one to the next it grows by the
// stretch between them.
#![tactic(auto)]

mod length; // the length along a line to one of its vertices

pub use length::length_to;
