// Lines, and how far their vertices are apart. A line is lent as two columns, its vertices' latitudes and
// longitudes; where one is longer, the rest of it is no part of the line. Lengths along a line are in `running_lengths`.
//
// Laws that a caller cites are in proofs/Rows: what the columns' rows are of the line.
#![tactic(auto)]

mod line; // points, a line's vertices and how far apart two points are

pub use line::{Point, Polyline, metres, vertex, vertices};
