// The vertices of a leg's chain, one after the other. No point is stored: a pass over the trip's rows marks those that are kept, a bit a row, and a chain is walked
// over the marks in its own direction, which is that of the rows or against it. Which points they are stands in `chain_lines`.
#![tactic(auto)]

mod marks; // a bit a row
mod vertices; // a marked chain, and from a vertex of it to the next

pub use marks::mark;
pub use vertices::{Here, MarkedChain};
