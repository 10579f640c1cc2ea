// How the rows of a table stand to what is asked of.
ghost use Rattle.std.specs.Prelude.{◌≡◌};
ghost use Rattle.row_stands.specs.Stands.{stand_of};
ghost use Rattle.row_stands.specs.declared.rows.Rows.TheVariants.{Ranges, Exceptions};

use column_order::numbers;
use columns::bit;
use ids::{IdColumn, Lent, Span, cell, compare, id};
use std::cmp::Ordering;

// The columns that a row is found by.
#[derive(Clone, Copy)]
pub enum Rows {
    // A feed, then a service.
    Ranges(IdColumn, IdColumn),
    // A feed, then a service, then a date, taken as its day, then a flag.
    Exceptions(IdColumn, IdColumn, Span, Span),
    // A line's token.
    Lines(IdColumn),
}

// How row k's feed and service stand to those asked of.
fn by_names(
    lent: &Lent,
    feeds: IdColumn,
    services: IdColumn,
    k: usize,
    a: &[u8],
    b: &[u8],
) -> Ordering
    ensures { result ≡ stand_of lent.now.bytes.now lent.now.words.now (Ranges feeds services) a.now b.now 0 0 k }
{
    match compare(id(lent, feeds, k), a) {
        Ordering::Less => return Ordering::Less,
        Ordering::Equal => {}
        Ordering::Greater => return Ordering::Greater,
    }
    compare(id(lent, services, k), b)
}

// The same, then how its date stands to the day, then its flag to the one asked of.
fn by_day(
    lent: &Lent,
    feeds: IdColumn,
    services: IdColumn,
    dates: Span,
    flags: Span,
    k: usize,
    a: &[u8],
    b: &[u8],
    day: u32,
    flag: u32,
) -> Ordering
    ensures { result ≡ stand_of lent.now.bytes.now lent.now.words.now (Exceptions feeds services dates flags) a.now b.now day flag k }
{
    match by_names(lent, feeds, services, k, a, b) {
        Ordering::Less => return Ordering::Less,
        Ordering::Equal => {}
        Ordering::Greater => return Ordering::Greater,
    }
    let o = days::ordinal_of(cell(lent.words, dates, k));
    if o < day as u64 {
        return Ordering::Less;
    }
    if (day as u64) < o {
        return Ordering::Greater;
    }
    numbers(bit(lent.bytes, flags, k), flag)
}

// How row k stands to what is asked of.
pub fn stands(
    lent: &Lent,
    rows: Rows,
    k: usize,
    a: &[u8],
    b: &[u8],
    day: u32,
    flag: u32,
) -> Ordering
    ensures { result ≡ stand_of lent.now.bytes.now lent.now.words.now rows a.now b.now day flag k }
{
    match rows {
        Rows::Ranges(f, s) => by_names(lent, f, s, k, a, b),
        Rows::Exceptions(f, s, d, m) => { by_day(lent, f, s, d, m, k, a, b, day, flag) }
        Rows::Lines(t) => compare(id(lent, t, k), a),
    }
}
