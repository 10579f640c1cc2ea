// The rules of the trips: the least refusal with their causes, from the least so far on.
ghost use Rattle.std.specs.Prelude.{◌≡◌};
ghost use Rattle.tables.specs.Pools.{pools_of};
ghost use Rattle.verdicts.specs.Refuse.{least_of};
ghost use Rattle.verdicts.specs.Verdict.{least};
ghost use Rattle.trip_rules.specs.Parts.{trips_causes};

use faults::Test;
use ids::Lent;
use refusals::Refusal;
use tables::{Bounds, Pool, Trips};
use verdicts::Verdict;

// The trips: their rows among so many stop times, their feeds and services, and their other columns.
pub fn trips(verdict: Verdict, lent: &Lent, b: Bounds, t: Trips, rows: u32) -> Verdict
    ensures { least result ≡ least_of (pools_of lent.now) (least verdict) (trips_causes b t rows) }
{
    let n = t.first.n;
    verdict
        .test(
            lent,
            Refusal::Columns,
            Test::Column(Pool::Words, t.first, n),
        )
        .test(
            lent,
            Refusal::Columns,
            Test::Column(Pool::Words, t.count, n),
        )
        .test(
            lent,
            Refusal::Columns,
            Test::Column(Pool::Words, t.shape, n),
        )
        .test(
            lent,
            Refusal::Columns,
            Test::Column(Pool::Bytes, t.shaped, n),
        )
        .test(
            lent,
            Refusal::Columns,
            Test::Column(Pool::Bytes, t.frequency, n),
        )
        .test(lent, Refusal::Count, Test::Over(n, b.trips))
        .test(lent, Refusal::Index, Test::EndsPast(t.first, t.count, rows))
        .test_all_ids(lent, t.feed, n, b.id)
        .test_all_ids(lent, t.service, n, b.id)
}
