// Where what is asked stands in the pools, after the case's columns.
use case_tables::{IdPlace, Pools, layout, limits, put};
use ids::IdColumn;

// The words: a column of plain ids, as long as the stops, which stands for ids that a query is not lent; then the length of the journey's key, a service's
// feed and id and its date, the row of the trip asked of, and its id.
pub const PLAIN: IdPlace = IdPlace {
    at: layout::WORDS,
    rows: limits::STOPS,
};

pub const KEY_LENGTH: u32 = PLAIN.at + 2 * limits::STOPS;

pub const FEED: IdPlace = IdPlace {
    at: KEY_LENGTH + 1,
    rows: 1,
};

pub const SERVICE: IdPlace = IdPlace {
    at: FEED.at + 2,
    rows: 1,
};

pub const DATE: u32 = SERVICE.at + 2;

pub const TRIP_ROW: u32 = DATE + 1;

pub const TRIP: IdPlace = IdPlace {
    at: TRIP_ROW + 1,
    rows: 1,
};

// The bytes: whether the journey departs, the plain id, a service's feed and id, and the trip's id.
pub const DEPARTS: u32 = layout::BYTES;

pub const PLAIN_BYTE: u32 = DEPARTS + 1;

pub const FEED_BYTES: u32 = PLAIN_BYTE + 1;

pub const SERVICE_BYTES: u32 = FEED_BYTES + limits::ID;

pub const TRIP_BYTES: u32 = SERVICE_BYTES + limits::ID;

// The times: the first departure.
pub const DEPARTURE: u32 = layout::TIMES;

// The reals: the positions of samples, then a number.
pub const SAMPLE_LAT: u32 = layout::REALS;

pub const SAMPLE_LON: u32 = SAMPLE_LAT + limits::CALLS;

pub const NUMBER: u32 = SAMPLE_LON + limits::CALLS;

// The distances: those of samples, then two.
pub const SAMPLE_DIST: u32 = layout::DISTS;

pub const PAIR: u32 = SAMPLE_DIST + limits::CALLS;

// Fills the column of plain ids.
pub fn plain_ids(pools: &mut Pools) {
    put(pools.bytes, PLAIN_BYTE, 0, b'x');
    for k in 0..limits::STOPS {
        put(pools.words, PLAIN.at, k, PLAIN_BYTE);
        put(pools.words, PLAIN.lengths(), k, 1);
    }
}

// Puts an id of a query where it is asked of.
pub fn put_id(pools: &mut Pools, place: u32, column: IdPlace, s: &[u8]) {
    if let Some(n) = case_ids::put_id(pools.bytes, place as usize, limits::ID as usize, s) {
        put(pools.words, column.at, 0, place);
        put(pools.words, column.lengths(), 0, n as u32);
    }
}

// So many plain ids.
pub fn plain(n: u32) -> IdColumn {
    PLAIN.column(n)
}
