// The vertex of a line that a stop lies at: the first, or the last, that is little farther from it than
// the nearest. It ports `forward_shape_index` and `forward_last_index` of the Rust's
// routing/geometry.rs. A line is lent as two columns, as in `lengths`. Nothing is required of the
// values: a distance that is NaN is nowhere near, and a line without vertices answers 0.
//
// No distance is stored: one pass finds the least (`distance_sweep`, `least_distance`), and a second
// stops at the vertex asked for (`vertices_within`). The definitions
// that the contracts cite are in specs/. Laws that a caller cites are in proofs/Range: the vertex is
// one of the line's, and not before the one that the search begins at.
#![tactic(auto)]

mod forward; // the first vertex, or the last, near a stop

pub use forward::{forward_last_index, forward_shape_index};
