// The feeds that have a calendar, their ranges and their exceptions.
use case_tables::{Pools, layout, put};
use case_tokens::field;
use case_words::{Why, token};

// (calendar ID)
pub(crate) fn calendar(s: &[u8], pools: &mut Pools, row: u32) -> Result<(), Why> {
    token::id(s, 1, pools, layout::CALENDAR, row)
}

// (range ID ID N N DAYS)
pub(crate) fn range(s: &[u8], pools: &mut Pools, row: u32) -> Result<(), Why> {
    token::id(s, 1, pools, layout::RANGE_FEED, row)?;
    token::id(s, 2, pools, layout::RANGE_SERVICE, row)?;
    // the days are read first: where they are at fault too, they are what is told
    let days = case_numbers::days(field(s, 5)).ok_or(Why::Token(5))?;
    put(pools.bytes, layout::RANGE_DAYS, row, days);
    put(pools.words, layout::RANGE_FIRST, row, token::number(s, 3)?);
    put(pools.words, layout::RANGE_LAST, row, token::number(s, 4)?);
    Ok(())
}

// (exception ID ID N KIND)
pub(crate) fn exception(s: &[u8], pools: &mut Pools, row: u32) -> Result<(), Why> {
    token::id(s, 1, pools, layout::EXCEPTION_FEED, row)?;
    token::id(s, 2, pools, layout::EXCEPTION_SERVICE, row)?;
    put(
        pools.words,
        layout::EXCEPTION_DATE,
        row,
        token::number(s, 3)?,
    );
    match field(s, 4) {
        b"added" => Ok(()),
        b"removed" => {
            put(pools.bytes, layout::EXCEPTION_REMOVED, row, 1);
            Ok(())
        }
        _ => Err(Why::Token(4)),
    }
}
