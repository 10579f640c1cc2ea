// The rules of ids with rows, aliases and lines.
ghost use Rattle.std.specs.Prelude.{◌≡◌};
ghost use Rattle.tables.specs.Pools.{pools_of};
ghost use Rattle.verdicts.specs.Refuse.{least_of};
ghost use Rattle.verdicts.specs.Verdict.{least};
ghost use Rattle.lookup_rules.specs.Parts.{id_rows_causes, aliases_causes, lines_causes};

use column_order::Key;
use faults::Test;
use ids::Lent;
use refusals::Refusal;
use tables::{Aliases, Bounds, IdRows, Lines, Mark, Pool};
use verdicts::Verdict;

// Ids that ascend, each with the row of one of `records`; no more than `most`.
pub fn id_rows(
    verdict: Verdict,
    lent: &Lent,
    b: Bounds,
    i: IdRows,
    most: u32,
    records: u32,
) -> Verdict
    ensures { least result ≡ least_of (pools_of lent.now) (least verdict) (id_rows_causes b i most records) }
{
    let n = i.row.n;
    verdict
        .test_all_ids(lent, i.id, n, b.id)
        .test(lent, Refusal::Columns, Test::Column(Pool::Words, i.row, n))
        .test(lent, Refusal::Count, Test::Over(n, most))
        .test(lent, Refusal::Order, Test::Unsorted(Key::Id(i.id), n))
        .test(
            lent,
            Refusal::Index,
            Test::Reaches(i.row, Mark::ALL, records as u64),
        )
}

// The aliases.
pub fn aliases(verdict: Verdict, lent: &Lent, b: Bounds, a: Aliases) -> Verdict
    ensures { least result ≡ least_of (pools_of lent.now) (least verdict) (aliases_causes b a) }
{
    let n = a.id.starts.n;
    verdict
        .test_all_ids(lent, a.id, n, b.id)
        .test_all_ids(lent, a.trip, n, b.id)
        .test(lent, Refusal::Count, Test::Over(n, b.others))
        .test(lent, Refusal::Order, Test::Unsorted(Key::Id(a.id), n))
}

// The line entries, of so many trips.
pub fn lines(verdict: Verdict, lent: &Lent, b: Bounds, l: Lines, trips: u32) -> Verdict
    ensures { least result ≡ least_of (pools_of lent.now) (least verdict) (lines_causes b l trips) }
{
    let n = l.trip.n;
    verdict
        .test_all_ids(lent, l.token, n, b.id)
        .test(lent, Refusal::Columns, Test::Column(Pool::Words, l.trip, n))
        .test(lent, Refusal::Count, Test::Over(n, b.others))
        .test(
            lent,
            Refusal::Order,
            Test::Unsorted(Key::IdWord(l.token, l.trip), n),
        )
        .test(
            lent,
            Refusal::Index,
            Test::Reaches(l.trip, Mark::ALL, trips as u64),
        )
}
