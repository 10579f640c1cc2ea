// What rows are looked up by: ids of stops and of static trips beside their own, aliases and line tokens.
use case_tables::{IdPlace, Pools, layout, put};
use case_words::{Why, token};

// An id into a column, and a number into another.
fn numbered(
    s: &[u8],
    pools: &mut Pools,
    column: IdPlace,
    numbers: u32,
    row: u32,
) -> Result<(), Why> {
    token::id(s, 1, pools, column, row)?;
    put(pools.words, numbers, row, token::number(s, 2)?);
    Ok(())
}

// (stop-key ID N)
pub(crate) fn stop_key(s: &[u8], pools: &mut Pools, row: u32) -> Result<(), Why> {
    numbered(s, pools, layout::STOP_KEY, layout::STOP_KEY_ROW, row)
}

// (static-key ID N)
pub(crate) fn static_key(s: &[u8], pools: &mut Pools, row: u32) -> Result<(), Why> {
    numbered(s, pools, layout::TRIP_KEY, layout::TRIP_KEY_ROW, row)
}

// (alias ID ID)
pub(crate) fn alias(s: &[u8], pools: &mut Pools, row: u32) -> Result<(), Why> {
    token::id(s, 1, pools, layout::ALIAS, row)?;
    token::id(s, 2, pools, layout::ALIAS_TRIP, row)
}

// (line ID N)
pub(crate) fn line_token(s: &[u8], pools: &mut Pools, row: u32) -> Result<(), Why> {
    numbered(s, pools, layout::LINE_TOKEN, layout::LINE_TRIP, row)
}
