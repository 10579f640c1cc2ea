// The rules of stop times: the least refusal with the causes of each part, from the least so far on.
ghost use Rattle.std.specs.Prelude.{◌≡◌};
ghost use Rattle.tables.specs.Pools.{pools_of};
ghost use Rattle.verdicts.specs.Refuse.{least_of};
ghost use Rattle.verdicts.specs.Verdict.{least};
ghost use Rattle.schedule_rules.specs.Parts.{calls_causes, placing_causes, call_times_causes};

use faults::Test;
use ids::Lent;
use refusals::Refusal;
use tables::{Bounds, Mark, Pool, StopTimes, Trips};
use verdicts::Verdict;

// The stop times.
pub fn calls(verdict: Verdict, lent: &Lent, b: Bounds, c: StopTimes) -> Verdict
    ensures { least result ≡ least_of (pools_of lent.now) (least verdict) (calls_causes b c) }
{
    let n = c.stop.n;
    verdict
        .test(lent, Refusal::Columns, Test::Column(Pool::Words, c.stop, n))
        .test(
            lent,
            Refusal::Columns,
            Test::Column(Pool::Words, c.sequence, n),
        )
        .test(
            lent,
            Refusal::Columns,
            Test::Column(Pool::Words, c.arrival, n),
        )
        .test(
            lent,
            Refusal::Columns,
            Test::Column(Pool::Words, c.departure, n),
        )
        .test(lent, Refusal::Columns, Test::Column(Pool::Dists, c.dist, n))
        .test(
            lent,
            Refusal::Columns,
            Test::Column(Pool::Bytes, c.measured, n),
        )
        .test(lent, Refusal::Count, Test::Over(n, b.calls))
}

// Where trips and stop times are placed: the trips' shapes, of so many, the stops of stop times, of so many, and
// their distances.
pub fn placing(
    verdict: Verdict,
    lent: &Lent,
    t: Trips,
    c: StopTimes,
    shapes: u32,
    stops: u32,
) -> Verdict
    ensures { least result ≡ least_of (pools_of lent.now) (least verdict) (placing_causes t c shapes stops) }
{
    verdict
        .test(
            lent,
            Refusal::Index,
            Test::Reaches(t.shape, Mark::where_set(t.shaped), shapes as u64),
        )
        .test(
            lent,
            Refusal::Index,
            Test::Reaches(c.stop, Mark::ALL, stops as u64),
        )
        .test(
            lent,
            Refusal::Number,
            Test::NotFinite(c.dist, Mark::where_set(c.measured)),
        )
}

// The schedule seconds of stop times.
pub fn call_times(verdict: Verdict, lent: &Lent, c: StopTimes) -> Verdict
    ensures { least result ≡ least_of (pools_of lent.now) (least verdict) (call_times_causes c) }
{
    verdict
        .test(
            lent,
            Refusal::Moment,
            Test::Reaches(c.arrival, Mark::ALL, 604800),
        )
        .test(
            lent,
            Refusal::Moment,
            Test::Reaches(c.departure, Mark::ALL, 604800),
        )
}
