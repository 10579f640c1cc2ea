// What a case holds in a row of a column.
use case_tables::{Pools, layout, span};

// Whether a flag is set.
pub(crate) fn is_set(pools: &Pools, column: u32, row: usize) -> bool {
    columns::bit(pools.bytes, span(column, 0), row) != 0
}

// A word.
pub(crate) fn word(pools: &Pools, column: u32, row: usize) -> u32 {
    ids::cell(pools.words, span(column, 0), row)
}

// A trip's first row of the stop times.
pub(crate) fn first_row(pools: &Pools, trip: u32) -> u32 {
    word(pools, layout::TRIP_FIRST, trip as usize)
}

// How many rows of the stop times a trip has.
pub(crate) fn row_count(pools: &Pools, trip: u32) -> u32 {
    word(pools, layout::TRIP_COUNT, trip as usize)
}
