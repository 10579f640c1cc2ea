// A fault that a column or a count may have, and whether it is there.
ghost use Rattle.std.specs.Prelude.{◌≡◌};
ghost use Rattle.tables.specs.Pools.{pools_of};
ghost use Rattle.faults.specs.Fault.{fails_of};

use crate::column::{no_date, not_a_number};
use column_faults::{ids_ill_sized, ill_sized, out_of_time, too_large};
use column_order::Key;
use ids::{IdColumn, Lent, Span};
use tables::{Mark, Pool, cut};

// A fault that a column or a count may have.
#[derive(Clone, Copy)]
pub enum Test {
    // a column runs past its pool, or has not so many rows
    Column(Pool, Span, u32),
    // the same of either column of ids
    Ids(IdColumn, u32),
    // a count is above a bound
    Over(u32, u32),
    // a number is at least so large
    Reaches(Span, Mark, u64),
    // a position is off the globe
    OffGlobe(Span, Span, Mark),
    // a row is not before the next
    Unsorted(Key, u32),
    // an id's bytes run past their pool
    IdsPast(IdColumn, Mark),
    // a range of rows, first and count, runs past so many
    EndsPast(Span, Span, u32),
    // a moment is before 1970 or after 2099
    Moment(Span, Mark),
    // an offset is over 14 hours either way
    Offset(Span),
    // an id has a byte outside 32..126, or is empty where it may not be
    BadIds(IdColumn, Mark, bool),
    // a distance is not finite
    NotFinite(Span, Mark),
    // a number is no date
    NoDate(Span),
    // a float is NaN
    NotANumber(Span),
}

// Whether the fault is there.
#[tactic(auto, unfolding(crate::specs::Fault::fails_of))]
pub fn fails(lent: &Lent, test: Test) -> bool
    ensures { result ≡ fails_of (pools_of lent.now) test }
{
    match test {
        Test::Column(pool, s, n) => ill_sized(tables::pool_length(lent, pool), s, n),
        Test::Ids(ids, n) => ids_ill_sized(lent.words.len(), ids, n),
        Test::Over(n, most) => most < n,
        Test::Reaches(s, m, n) => too_large(lent, s, m, n),
        Test::OffGlobe(lat, lon, m) => column_floats::off_globe(
            cut(lent.reals, lat),
            cut(lent.reals, lon),
            cut(lent.bytes, m.flags),
            m.all,
        ),
        Test::Unsorted(key, n) => column_order::unsorted(lent, key, n as usize),
        Test::IdsPast(ids, m) => columns::ends_past(
            cut(lent.words, ids.starts),
            cut(lent.words, ids.lens),
            cut(lent.bytes, m.flags),
            m.all,
            lent.bytes.len() as u64,
        ),
        Test::EndsPast(first, count, n) => {
            columns::ends_past(
                cut(lent.words, first),
                cut(lent.words, count),
                &[],
                true,
                n as u64,
            )
        }
        Test::Moment(s, m) => out_of_time(lent, s, m),
        Test::Offset(s) => columns::outside(cut(lent.times, s), &[], true, -50400, 50400),
        Test::BadIds(ids, m, empty) => column_ids::bad_ids(
            lent.bytes,
            cut(lent.words, ids.starts),
            cut(lent.words, ids.lens),
            cut(lent.bytes, m.flags),
            m.all,
            empty,
        ),
        Test::NotFinite(s, m) => {
            column_floats::not_finite(cut(lent.dists, s), cut(lent.bytes, m.flags), m.all)
        }
        Test::NoDate(s) => no_date(cut(lent.words, s)),
        Test::NotANumber(s) => not_a_number(cut(lent.reals, s)),
    }
}
