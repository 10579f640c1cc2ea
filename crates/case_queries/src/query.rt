// What is asked of a case. Ids stay in the line: a query says only that they are ids.
use case_tables::limits;
use case_tokens::{field, fields};

#[derive(Clone, Copy, Debug)]
pub enum Query {
    Sin(f64),
    Cos(f64),
    Atan(f64),
    Asin(f64),
    Root(f64),
    Narrow(f64),
    Snap(f64),
    Atan2(f64, f64),
    // from a latitude and longitude to another
    Haversine(f64, f64, f64, f64),
    Bearing(f64, f64, f64, f64),
    Date(u32),
    // the date; fields 1 and 2 are the feed and the service
    Runs(u32),
    Match,
    Project(u32),
    Calibrate(u32),
    Backfill(u32),
    Along(u32, f32, f32, f64),
    // the offsets from and to; field 1 is the trip
    Leg(u32, u32),
    Place,
}

// Field i as an f64.
fn real(s: &[u8], i: usize) -> Option<f64> {
    let bits = case_numbers::double(field(s, i))?;
    Some(float_bits::f64_of(bits))
}

// Field i as an f32.
fn single(s: &[u8], i: usize) -> Option<f32> {
    let bits = case_numbers::single(field(s, i))?;
    Some(float_bits::f32_of(bits))
}

// Field i as a number.
fn number(s: &[u8], i: usize) -> Option<u32> {
    case_numbers::number(field(s, i))
}

// Whether field i is an id.
fn is_id(s: &[u8], i: usize) -> bool {
    case_ids::id_length(field(s, i), limits::ID as usize).is_some()
}

// A query of its name alone.
fn of_name(s: &[u8]) -> Option<Query> {
    match field(s, 0) {
        b"match" => Some(Query::Match),
        b"place" => Some(Query::Place),
        _ => None,
    }
}

// A query of one token, a float or a number.
fn of_token(s: &[u8]) -> Option<Query> {
    match field(s, 0) {
        b"sin" => real(s, 1).map(Query::Sin),
        b"cos" => real(s, 1).map(Query::Cos),
        b"atan" => real(s, 1).map(Query::Atan),
        b"asin" => real(s, 1).map(Query::Asin),
        b"root" => real(s, 1).map(Query::Root),
        b"narrow" => real(s, 1).map(Query::Narrow),
        b"snap" => real(s, 1).map(Query::Snap),
        b"date" => number(s, 1).map(Query::Date),
        b"project" => number(s, 1).map(Query::Project),
        b"calibrate" => number(s, 1).map(Query::Calibrate),
        b"backfill" => number(s, 1).map(Query::Backfill),
        _ => None,
    }
}

// (atan2 X X)
fn of_two(s: &[u8]) -> Option<Query> {
    match field(s, 0) {
        b"atan2" => Some(Query::Atan2(real(s, 1)?, real(s, 2)?)),
        _ => None,
    }
}

// (runs ID ID N), (leg ID N N)
fn of_three(s: &[u8]) -> Option<Query> {
    match field(s, 0) {
        b"runs" if is_id(s, 1) && is_id(s, 2) => number(s, 3).map(Query::Runs),
        b"leg" if is_id(s, 1) => Some(Query::Leg(number(s, 2)?, number(s, 3)?)),
        _ => None,
    }
}

// (along N Y Y X), or a query of two positions
fn of_four(s: &[u8]) -> Option<Query> {
    match field(s, 0) {
        b"along" => Some(Query::Along(number(s, 1)?, single(s, 2)?, single(s, 3)?, real(s, 4)?)),
        b"haversine" => Some(Query::Haversine(real(s, 1)?, real(s, 2)?, real(s, 3)?, real(s, 4)?)),
        b"bearing" => Some(Query::Bearing(real(s, 1)?, real(s, 2)?, real(s, 3)?, real(s, 4)?)),
        _ => None,
    }
}

// The query that stands between a line's parentheses.
pub fn query_of(s: &[u8]) -> Option<Query> {
    match fields(s) {
        1 => of_name(s),
        2 => of_token(s),
        3 => of_two(s),
        4 => of_three(s),
        5 => of_four(s),
        _ => None,
    }
}
