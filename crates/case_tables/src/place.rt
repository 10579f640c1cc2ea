// Where a column of ids stands in the words, and values at a row of a column.
ghost use Rattle.std.specs.Prelude.{◌≡◌, ◌+◌, ◌^◌, ◌<◌, ◌≤◌, length, slice_set};

use ids::{IdColumn, Span};

// A column that holds the ids of so many rows: where they begin, from `at` on, then how long they are.
#[derive(Clone, Copy, Debug, PartialEq, Eq)]
pub struct IdPlace {
    pub at: u32,
    pub rows: u32,
    pub ghost fits: { at + rows < 2 ^ 32 },
}

impl IdPlace {
    // The column, of which n rows are there.
    pub fn column(self, n: u32) -> IdColumn
        ensures starts { result.starts.at ≡ self.at }
        ensures lengths { result.lens.at ≡ self.at + self.rows }
        ensures rows { (result.starts.n ≡ n) × (result.lens.n ≡ n) }
    {
        IdColumn {
            starts: Span { at: self.at, n },
            lens: Span {
                at: self.lengths(),
                n,
            },
        }
    }

    // Where the lengths stand.
    pub fn lengths(self) -> u32
        ensures { result ≡ self.at + self.rows }
    {
        self.at + self.rows
    }
}

// A value at a row of a column. A place that a pool does not have takes nothing.
pub fn put<T: Copy>(pool: &mut [T], column: u32, row: u32, value: T)
    ensures written { column + row < length pool.old → pool.new ≡ slice_set pool.old (column + row) value }
    ensures kept { length pool.old ≤ column + row → pool.new ≡ pool.old }
{
    let place = column as usize + row as usize;
    if place < pool.len() {
        pool[place] = value;
    }
}
