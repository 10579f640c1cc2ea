// One token of a line. Tokens are told by their fields: field 0 is the form's name.
use crate::why::Why;
use case_tables::{IdPlace, NotPut, Pools, put};
use case_tokens::field;

// An id, as a row of a column.
pub fn id(s: &[u8], i: u32, pools: &mut Pools, column: IdPlace, row: u32) -> Result<(), Why> {
    id_text(field(s, i as usize), i, pools, column, row)
}

// The id that a text stands for, which is field i or a part of it.
pub fn id_text(
    text: &[u8],
    i: u32,
    pools: &mut Pools,
    column: IdPlace,
    row: u32,
) -> Result<(), Why> {
    pools.put_id(column, row, text).map_err(|not| match not {
        NotPut::NoId => Why::Token(i),
        NotPut::Full => Why::Ids,
    })
}

pub fn number(s: &[u8], i: u32) -> Result<u32, Why> {
    case_numbers::number(field(s, i as usize)).ok_or(Why::Token(i))
}

pub fn moment(s: &[u8], i: u32) -> Result<i64, Why> {
    case_moments::moment(field(s, i as usize)).ok_or(Why::Token(i))
}

fn real(s: &[u8], i: u32) -> Result<f64, Why> {
    let bits = case_numbers::double(field(s, i as usize)).ok_or(Why::Token(i))?;
    Ok(float_bits::f64_of(bits))
}

// A latitude and a longitude, of which field i is the first.
pub fn position(
    s: &[u8],
    i: u32,
    pools: &mut Pools,
    lat: u32,
    lon: u32,
    row: u32,
) -> Result<(), Why> {
    put(pools.reals, lat, row, real(s, i)?);
    put(pools.reals, lon, row, real(s, i.wrapping_add(1))?);
    Ok(())
}
