// The rules of what is lent. Document 01 bounds no journey: legs are bounded as its tables of rows are, and a leg's points as those of a shape, the only
// line that it bounds.
ghost use Rattle.std.specs.Prelude.{◌≡◌};
ghost use Rattle.tables.specs.Pools.{pools_of};
ghost use Rattle.verdicts.specs.Refuse.{least_of};
ghost use Rattle.verdicts.specs.Verdict.{least};
ghost use Rattle.journey_rules.specs.Causes.{legs_causes, ends_causes};

use crate::lent::JourneyLegs;
use faults::Test;
use ids::Lent;
use refusals::Refusal;
use tables::{Bounds, Mark, Pool};
use verdicts::Verdict;

// The legs, and their points among so many.
pub fn legs(verdict: Verdict, lent: &Lent, b: Bounds, j: JourneyLegs, points: u32) -> Verdict
    ensures { least result ≡ least_of (pools_of lent.now) (least verdict) (legs_causes b j points) }
{
    let n = j.walk.n;
    verdict
        .test(lent, Refusal::Columns, Test::Column(Pool::Bytes, j.walk, n))
        .test(
            lent,
            Refusal::Columns,
            Test::Column(Pool::Words, j.first, n),
        )
        .test(
            lent,
            Refusal::Columns,
            Test::Column(Pool::Words, j.count, n),
        )
        .test(lent, Refusal::Count, Test::Over(n, b.others))
        .test(
            lent,
            Refusal::Count,
            Test::Reaches(j.count, Mark::ALL, b.points as u64 + 1),
        )
        .test(
            lent,
            Refusal::Index,
            Test::EndsPast(j.first, j.count, points),
        )
}

// Where walks start and end.
pub fn ends(verdict: Verdict, lent: &Lent, j: JourneyLegs) -> Verdict
    ensures { least result ≡ least_of (pools_of lent.now) (least verdict) (ends_causes j) }
{
    let n = j.walk.n;
    verdict
        .test(
            lent,
            Refusal::Columns,
            Test::Column(Pool::Reals, j.start.lat, n),
        )
        .test(
            lent,
            Refusal::Columns,
            Test::Column(Pool::Reals, j.start.lon, n),
        )
        .test(
            lent,
            Refusal::Columns,
            Test::Column(Pool::Bytes, j.started, n),
        )
        .test(
            lent,
            Refusal::Columns,
            Test::Column(Pool::Reals, j.end.lat, n),
        )
        .test(
            lent,
            Refusal::Columns,
            Test::Column(Pool::Reals, j.end.lon, n),
        )
        .test(
            lent,
            Refusal::Columns,
            Test::Column(Pool::Bytes, j.ended, n),
        )
        .test(
            lent,
            Refusal::Position,
            Test::OffGlobe(j.start.lat, j.start.lon, Mark::where_set(j.started)),
        )
        .test(
            lent,
            Refusal::Position,
            Test::OffGlobe(j.end.lat, j.end.lon, Mark::where_set(j.ended)),
        )
}
