// Rows of a table that ascend, found by halves.
ghost use Rattle.std.specs.Prelude.{◌≡◌};
ghost use Rattle.ids.specs.First.{first};
ghost use Rattle.row_stands.specs.Stands.{stand_of};
ghost use Rattle.row_lookup.specs.Rows.{place_of, row_is, InOrder, Ascend};

use ids::Lent;
use row_stands::{Rows, stands};
use std::cmp::Ordering;

// The first of n rows that does not come before what is asked of, or n.
pub fn seek(lent: &Lent, rows: Rows, n: usize, a: &[u8], b: &[u8], day: u32, flag: u32) -> usize
    requires { InOrder lent.now.bytes.now lent.now.words.now rows n }
    ensures { result ≡ place_of (stand_of lent.now.bytes.now lent.now.words.now rows a.now b.now day flag) n }
{
    // A `while`, since the rows are read from the pools: there is no slice of them whose `partition_point` would say the same.
    let mut lo = 0;
    let mut hi = n;
    while lo < hi {
        let mid = lo + (hi - lo) / 2;
        match stands(lent, rows, mid, a, b, day, flag) {
            Ordering::Less => lo = mid + 1,
            Ordering::Equal => hi = mid,
            Ordering::Greater => hi = mid,
        }
    }
    lo
}

// The row that is what is asked of.
pub fn row_of(
    lent: &Lent,
    rows: Rows,
    n: usize,
    a: &[u8],
    b: &[u8],
    day: u32,
    flag: u32,
) -> Option<usize>
    requires { Ascend lent.now.bytes.now lent.now.words.now rows n }
    ensures { result ≡ first (row_is (stand_of lent.now.bytes.now lent.now.words.now rows a.now b.now day flag)) n }
{
    let k = seek(lent, rows, n, a, b, day, flag);
    if k < n {
        match stands(lent, rows, k, a, b, day, flag) {
            Ordering::Less => {}
            Ordering::Equal => return Some(k),
            Ordering::Greater => {}
        }
    }
    None
}
