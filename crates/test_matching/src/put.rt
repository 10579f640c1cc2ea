// Numbers and ids into the pools. Column k has 64 rows from 256 + 64 k on in its pool, and the words begin with the layout of the tables, as crate
// `worlds` reads it. A place that a pool does not have takes nothing.
use crate::rows::{Held, Row, held_in};
use worlds::Pools;

// How many columns there are.
pub(crate) const COLUMNS: u32 = 91;

// Where the ids begin in the bytes, after the columns of flags.
pub(crate) const IDS: u32 = 8192;

// Where row k of a column is.
fn place(column: u32, k: u32) -> u32 {
    if COLUMNS < column || 63 < k {
        return 0;
    }
    256 + 64 * column + k
}

// Where the layout has how many rows a column has; the word before says where they begin.
fn count_place(column: u32) -> usize {
    if COLUMNS < column {
        return 13;
    }
    13 + 2 * column as usize
}

// How many rows a column has.
pub(crate) fn count(words: &[u32], column: u32) -> u32 {
    ids::word(words, count_place(column))
}

// So many rows for each column from one up to another.
pub(crate) fn counts(words: &mut [u32], first: u32, end: u32, n: u32) {
    for column in first..end {
        let at = count_place(column);
        worlds::put(words, at.wrapping_sub(1), place(column, 0));
        worlds::put(words, at, n);
    }
}

// The field that was read.
pub(crate) fn field(pools: &mut Pools<'_>, row: Row) {
    let at = place(row.column, row.row) as usize;
    match held_in(row.column) {
        Held::Ids => {
            worlds::put(pools.words, at, row.start);
            worlds::put(
                pools.words,
                at.wrapping_add(64),
                row.end.wrapping_sub(row.start),
            );
        }
        Held::Words => {
            worlds::put(pools.words, at, row.number);
        }
        Held::Flags => {
            worlds::put(pools.bytes, at, (row.number % 256) as u8);
        }
        Held::Times => {
            let t = i64::from(row.number);
            worlds::put(pools.times, at, if row.minus { -t } else { t });
        }
        Held::Distances => {}
    }
}

pub(crate) fn byte(bytes: &mut [u8], at: u32, b: u8) {
    worlds::put(bytes, at as usize, b);
}
