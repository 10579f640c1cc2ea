// Worlds that test programs lend: the pools, and the bounds and tables, from the words that lay them out. As programs, its functions are proved safe
// and most promise no more: what they read is held to answers that were made elsewhere.
#![tactic(auto)]

mod layout; // the bounds, the pools and each table
mod pools; // the pools, as a script fills them and as operations are lent them

pub use layout::{along, bounds, journey, leg, points, pool, samples, service, span, tables};
pub use pools::{Pools, put};
