// The forms of the case language for stops, static trips with their stop times, and shapes with their points (docs/CASES.md), each a line into the pools that a program
// lends. As programs, its functions are proved safe and ending: what is read shows in what is answered.
#![tactic(auto)]

use case_tables::{Pools, layout, limits, put};
use case_tokens::{closed, field, fields};
use case_words::{Why, token};

// The raw id of a stop, if it is field i and the next; the line ends there.
fn raw(s: &[u8], pools: &mut Pools, i: u32, row: u32) -> Result<(), Why> {
    let at = i as usize;
    if fields(s) == at {
        return Ok(());
    }
    if fields(s) != at + 2 || field(s, at) != b"(raw".as_slice() {
        return Err(Why::Tokens);
    }
    let next = i.wrapping_add(1);
    let id = closed(field(s, at + 1)).ok_or(Why::Token(next))?;
    token::id_text(id, next, pools, layout::STOP_RAW, row)
}

// The position of a stop, if it has one, and its raw id after it.
fn placed(s: &[u8], pools: &mut Pools, row: u32) -> Result<(), Why> {
    if fields(s) < 3 {
        return Ok(());
    }
    if field(s, 2) == b"(raw".as_slice() {
        return raw(s, pools, 2, row);
    }
    put(pools.bytes, layout::STOP_POSITIONED, row, 1);
    token::position(s, 2, pools, layout::STOP_LAT, layout::STOP_LON, row)?;
    raw(s, pools, 4, row)
}

// (stop ID [X X] [(raw ID)])
pub fn stop(s: &[u8], pools: &mut Pools, row: u32) -> Result<(), Why> {
    let key = pools.held.stopkeys;
    if limits::STOP_KEYS <= key {
        return Err(Why::Rows(limits::STOP_KEYS));
    }
    token::id(s, 1, pools, layout::STOP_OWN, row)?;
    // the row of the stop-id table that names it
    pools.copy_id(layout::STOP_OWN, row, layout::STOP_KEY, key);
    put(pools.words, layout::STOP_KEY_ROW, key, row);
    pools.held.stopkeys = key + 1;
    placed(s, pools, row)
}

// Whether a static trip has frequency windows, from field i to the line's end.
fn frequency(s: &[u8], pools: &mut Pools, i: u32, row: u32) -> Result<(), Why> {
    let at = i as usize;
    if fields(s) == at {
        return Ok(());
    }
    if fields(s) != at + 1 || field(s, at) != b"(frequency)".as_slice() {
        return Err(Why::Tokens);
    }
    put(pools.bytes, layout::TRIP_FREQUENCY, row, 1);
    Ok(())
}

// The shape of a static trip, if it has one, and what may follow.
fn shaped(s: &[u8], pools: &mut Pools, row: u32) -> Result<(), Why> {
    if field(s, 4) != b"(shape".as_slice() {
        return frequency(s, pools, 4, row);
    }
    let shape = closed(field(s, 5))
        .and_then(|token| case_numbers::number(token))
        .ok_or(Why::Token(5))?;
    put(pools.words, layout::TRIP_SHAPE, row, shape);
    put(pools.bytes, layout::TRIP_SHAPED, row, 1);
    frequency(s, pools, 6, row)
}

// (static ID ID ID [(shape N)] [(frequency)])
pub fn static_trip(s: &[u8], pools: &mut Pools, row: u32) -> Result<(), Why> {
    let key = pools.held.tripkeys;
    if limits::TRIP_KEYS <= key {
        return Err(Why::Rows(limits::TRIP_KEYS));
    }
    token::id(s, 1, pools, layout::TRIP_KEY, key)?;
    // where its rows begin, and the row of the trip-id table that names it
    let first = pools.held.calls;
    put(pools.words, layout::TRIP_FIRST, row, first);
    put(pools.words, layout::TRIP_KEY_ROW, key, row);
    pools.held.tripkeys = key + 1;
    token::id(s, 2, pools, layout::TRIP_FEED, row)?;
    token::id(s, 3, pools, layout::TRIP_SERVICE, row)?;
    shaped(s, pools, row)
}

// The distance of a stop time, if it has one; the line ends after it.
fn measured(s: &[u8], pools: &mut Pools, row: u32) -> Result<(), Why> {
    if fields(s) == 5 {
        return Ok(());
    }
    if fields(s) != 7 || field(s, 5) != b"(dist".as_slice() {
        return Err(Why::Tokens);
    }
    let bits = closed(field(s, 6))
        .and_then(|token| case_numbers::single(token))
        .ok_or(Why::Token(6))?;
    put(
        pools.dists,
        layout::CALL_DIST,
        row,
        float_bits::f32_of(bits),
    );
    put(pools.bytes, layout::CALL_MEASURED, row, 1);
    Ok(())
}

// One more row of the last record of a table of so many, whose rows are counted in `column`; nothing where there is none.
fn one_more(pools: &mut Pools, column: u32, records: u32) -> Option<()> {
    let last = records.checked_sub(1)?;
    let rows = ids::word(pools.words, column as usize + last as usize);
    put(pools.words, column, last, rows.wrapping_add(1));
    Some(())
}

// (call N N N N [(dist Y)])
pub fn call(s: &[u8], pools: &mut Pools, row: u32) -> Result<(), Why> {
    let trips = pools.held.trips;
    one_more(pools, layout::TRIP_COUNT, trips).ok_or(Why::NoStatic)?;
    put(
        pools.words,
        layout::CALL_SEQUENCE,
        row,
        token::number(s, 1)?,
    );
    put(pools.words, layout::CALL_STOP, row, token::number(s, 2)?);
    put(pools.words, layout::CALL_ARRIVAL, row, token::number(s, 3)?);
    put(
        pools.words,
        layout::CALL_DEPARTURE,
        row,
        token::number(s, 4)?,
    );
    measured(s, pools, row)
}

// (shape ID)
pub fn shape(s: &[u8], pools: &mut Pools, row: u32) -> Result<(), Why> {
    let first = pools.held.points;
    put(pools.words, layout::SHAPE_FIRST, row, first);
    token::id(s, 1, pools, layout::SHAPE, row)
}

// (point X X)
pub fn point(s: &[u8], pools: &mut Pools, row: u32) -> Result<(), Why> {
    let shapes = pools.held.shapes;
    one_more(pools, layout::SHAPE_COUNT, shapes).ok_or(Why::NoShape)?;
    token::position(s, 1, pools, layout::POINT_LAT, layout::POINT_LON, row)
}
