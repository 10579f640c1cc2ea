// The row of an id in a column whose ids ascend.
ghost use Rattle.std.specs.Prelude.{◌≡◌};
ghost use Rattle.ids.specs.Pool.{id_of};
ghost use Rattle.ids.specs.Rows.{Ascending, row_of};

use crate::order::compare;
use crate::pool::{IdColumn, Lent, id};
use std::cmp::Ordering;

// The row whose id is the key. The rows from lo up to hi are halved until it is among them no more: std's `binary_search_by` wants a slice of rows, and these lie in two pools.
pub fn find(lent: &Lent, col: IdColumn, key: &[u8]) -> Option<usize>
    requires { Ascending (id_of lent.now.bytes.now lent.now.words.now col) col.starts.n }
    ensures { result ≡ row_of (id_of lent.now.bytes.now lent.now.words.now col) col.starts.n key.now }
{
    let mut lo = 0;
    let mut hi = col.starts.n as usize;
    while lo < hi {
        let mid = lo + (hi - lo) / 2;
        let s = id(lent, col, mid);
        match compare(s, key) {
            Ordering::Equal => return Some(mid),
            Ordering::Less => lo = mid + 1,
            Ordering::Greater => hi = mid,
        }
    }
    None
}
