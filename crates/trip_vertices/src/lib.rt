// The vertices of a trip's stops on its shape, written to a lent column as words if it has room. Which trip, and what is refused before, is left to
// `trip_projection`.
#![tactic(auto)]

mod mark; // mark.rt: one stop, and its vertex as a word
mod stops; // stops.rt: the stops of a trip

pub use stops::write;
