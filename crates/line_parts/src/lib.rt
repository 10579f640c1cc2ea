// A part of a line: from one of its vertices to another. Its vertices, and lengths along it. A line is lent as two
// columns, as in `lengths`. Nothing is required: a vertex that a line has not reads as NaN.
//
// No length is stored: the sum is carried in the loop, from the left.
#![tactic(auto)]

mod part; // a part of a line, its vertices and its length

pub use part::{Part, next_point, part_length, point, stretch_length, whole};
