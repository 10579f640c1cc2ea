// What geometry reads of the lent tables: where the stop of a row is, and the line of a trip's shape. Reads are total.
#![tactic(auto)]

mod line; // line.rt: the line of a shape, as two columns
mod stop; // stop.rt: where the stop of a row is

pub use line::{shape_column, shape_span, trip_span};
pub use stop::{real, row_or, row_position, stop_point};
