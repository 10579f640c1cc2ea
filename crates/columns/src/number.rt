// Columns of numbers: whether some row is too large, ends past a table's end, or is not in a range.
ghost use Rattle.std.specs.Prelude.{◌≡◌, min, length};
ghost use Rattle.columns.specs.Number.{beyond, ends_past_at, outside_at, reaches_at};
ghost use Rattle.columns.specs.Rows.{among, some};

use crate::row::some_counted;

// Whether some row is at least n: an index outside a table of n rows, a number above n - 1.
pub fn reaches(s: &[u32], flags: &[u8], all: bool, n: u64) -> bool
    ensures { result ≡ some (among all flags.now (reaches_at s.now n)) (length s.now) }
{
    some_counted(s.len(), flags, all, |k| n <= u64::from(s[k]))
}

// Whether some row's first and count, of rows in another table, end past that table's n.
pub fn ends_past(first: &[u32], count: &[u32], flags: &[u8], all: bool, n: u64) -> bool
    ensures { result ≡ some (among all flags.now (ends_past_at first.now count.now n)) (min (length first.now) (length count.now)) }
{
    let rows = first.len().min(count.len());
    some_counted(
        rows,
        flags,
        all,
        |k| n < u64::from(first[k]) + u64::from(count[k]),
    )
}

// Whether some row is below lo or above hi.
pub fn outside(s: &[i64], flags: &[u8], all: bool, lo: i64, hi: i64) -> bool
    ensures { result ≡ some (among all flags.now (outside_at s.now lo hi)) (length s.now) }
{
    some_counted(s.len(), flags, all, |k| s[k] < lo || hi < s[k])
}
