// What the row of a sailing says: whether it is cancelled, the clock, its route, its key, and the offset of its local time. The trip that it stands for is in `sailings`.
#![tactic(auto)]

mod row; // row.rt: each of them

pub use row::{base_key, clock, is_cancelled, offset, route};
