// The least distance from a stop to the vertices of a line, from a vertex on, looked for from the line's end. A line is lent as two columns, as in
// `lengths`. A distance that is NaN is never the least. What is near the least is not remembered, as in `distance_sweep`.
#![tactic(auto)]

mod least; // the least distance from a stop, looked for from the line's end

pub use least::least_from;
