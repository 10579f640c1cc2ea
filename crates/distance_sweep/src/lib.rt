// The least distance from a stop to the vertices of a line, from a vertex on, in one pass; and what the pass remembers of the vertices within the
// slack of it. A line is lent as two columns, as in `lengths`. A distance that is NaN is never the least.
#![tactic(auto)]

mod nearest; // the least distance from a stop

pub use nearest::{Nearest, sweep};
