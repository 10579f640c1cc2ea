// Where a case of the case language (docs/CASES.md) stands in the pools that a program lends: how much is held, where each column stands, how many rows it has so
// far, and the tables of crate `tables` over them. As programs, its functions are proved safe and ending: what is read shows in what is answered.
#![tactic(auto)]

mod held; // held.rt: how many rows of each table there are
pub mod layout; // layout.rt: where each column stands in its pool, and the tables
pub mod limits; // limits.rt: how much is held
mod place; // place.rt: columns of ids, and values at a row of a column
mod pools; // pools.rt: the pools, and ids into them

pub use held::Case;
pub use layout::{span, tables};
pub use place::{IdPlace, put};
pub use pools::{NotPut, Pools};
