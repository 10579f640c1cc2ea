// Everything that is lent to an operation. A table is a handful of columns; a column is a span of one of five
// pools, which are lent as slices.
#![tactic(auto)]

mod bounds; // bounds.rt: how large each table and id may be
mod lent; // lent.rt: the tables and their columns
mod mark; // mark.rt: a column's pool, and which of its rows have a value
mod pools; // pools.rt: how long a pool is, and a column's part of its pool

pub use bounds::Bounds;
pub use lent::{
    Aliases, Along, Calendars, Exceptions, IdRows, Journey, LegAsked, Lines, Points, Ranges,
    Sailing, Samples, Service, Shapes, StopTimes, Stops, Tables, Trips, Updates,
};
pub use mark::{Mark, Pool};
pub use pools::{cut, pool_length};
