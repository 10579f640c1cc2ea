// The stop at a sequence in a trip, over the lent tables. A stop is a row of the stops; one without a position is passed over.
#![tactic(auto)]

mod lookup; // the tables that a stop is looked up in, and whether it has a position
mod row; // by its sequence in a trip

pub use lookup::{Lookup, if_positioned};
pub use row::row_stop;
