// The same by numbers, for a caller whose refusals are any: the least so far as a number, where 0 is none.
ghost use Rattle.std.specs.Prelude.{◌≡◌, false};
ghost use Rattle.tables.specs.Marks.{always};
ghost use Rattle.tables.specs.Pools.{pools_of};
ghost use Rattle.verdicts.specs.Refuse.{sooner, with_cause, least_of, id_causes};

use faults::{Test, fails};
use ids::{IdColumn, Lent};
use tables::Mark;

// The lesser of two numbers, where 0 is none.
fn earlier(best: u32, n: u32) -> u32
    ensures { result ≡ sooner best n }
{
    if best == 0 || n < best { n } else { best }
}

/// The least number with one cause more.
pub fn tested(lent: &Lent, best: u32, n: u32, test: Test) -> u32
    ensures { result ≡ with_cause (pools_of lent.now) best (n, test) }
{
    if fails(lent, test) {
        return earlier(best, n);
    }
    best
}

/// The least number with the causes of a column of n ids, of which those that count have at most so many bytes.
pub fn named(
    lent: &Lent,
    best: u32,
    ids: IdColumn,
    mark: Mark,
    empty: bool,
    n: u32,
    most: u32,
) -> u32
    ensures { result ≡ least_of (pools_of lent.now) best (id_causes ids mark empty n most) }
{
    let long = Test::Reaches(ids.lens, mark, most as u64 + 1);
    let sized = tested(lent, best, 1, Test::Ids(ids, n));
    let short = tested(lent, sized, 2, long);
    let held = tested(lent, short, 5, Test::IdsPast(ids, mark));
    tested(lent, held, 7, Test::BadIds(ids, mark, empty))
}

/// The same of a column where each row has an id, and none is empty.
pub fn all_named(lent: &Lent, best: u32, ids: IdColumn, n: u32, most: u32) -> u32
    ensures { result ≡ least_of (pools_of lent.now) best (id_causes ids always false n most) }
{
    named(lent, best, ids, Mark::ALL, false, n, most)
}
