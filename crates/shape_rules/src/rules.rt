// The rules of shapes, points and measures.
ghost use Rattle.std.specs.Prelude.{◌≡◌};
ghost use Rattle.tables.specs.Pools.{pools_of};
ghost use Rattle.verdicts.specs.Refuse.{least_of};
ghost use Rattle.verdicts.specs.Verdict.{least};
ghost use Rattle.shape_rules.specs.Parts.{shapes_causes, points_causes, points_within_causes, measures_causes};

use column_order::Key;
use faults::Test;
use ids::{Lent, Span};
use refusals::Refusal;
use tables::{Bounds, Mark, Points, Pool, Shapes};
use verdicts::Verdict;

// The shapes, and their points among so many.
pub fn shapes(verdict: Verdict, lent: &Lent, b: Bounds, s: Shapes, points: u32) -> Verdict
    ensures { least result ≡ least_of (pools_of lent.now) (least verdict) (shapes_causes b s points) }
{
    let n = s.first.n;
    verdict
        .test_all_ids(lent, s.id, n, b.id)
        .test(
            lent,
            Refusal::Columns,
            Test::Column(Pool::Words, s.first, n),
        )
        .test(
            lent,
            Refusal::Columns,
            Test::Column(Pool::Words, s.count, n),
        )
        .test(lent, Refusal::Count, Test::Over(n, b.others))
        .test(
            lent,
            Refusal::Count,
            Test::Reaches(s.count, Mark::ALL, b.points as u64 + 1),
        )
        .test(lent, Refusal::Order, Test::Unsorted(Key::Id(s.id), n))
        .test(
            lent,
            Refusal::Index,
            Test::EndsPast(s.first, s.count, points),
        )
}

// The points of all shapes, or positions.
pub fn points(verdict: Verdict, lent: &Lent, p: Points) -> Verdict
    ensures { least result ≡ least_of (pools_of lent.now) (least verdict) (points_causes p) }
{
    let n = p.lat.n;
    verdict
        .test(lent, Refusal::Columns, Test::Column(Pool::Reals, p.lat, n))
        .test(lent, Refusal::Columns, Test::Column(Pool::Reals, p.lon, n))
        .test(
            lent,
            Refusal::Position,
            Test::OffGlobe(p.lat, p.lon, Mark::ALL),
        )
}

// The same of no more points than so many.
pub fn points_within(verdict: Verdict, lent: &Lent, p: Points, most: u32) -> Verdict
    ensures { least result ≡ least_of (pools_of lent.now) (least verdict) (points_within_causes p most) }
{
    let n = p.lat.n;
    verdict
        .test(lent, Refusal::Count, Test::Over(n, most))
        .test(lent, Refusal::Columns, Test::Column(Pool::Reals, p.lat, n))
        .test(lent, Refusal::Columns, Test::Column(Pool::Reals, p.lon, n))
        .test(
            lent,
            Refusal::Position,
            Test::OffGlobe(p.lat, p.lon, Mark::ALL),
        )
}

// Distances, as many as n, and numbers for calibration.
pub fn measures(verdict: Verdict, lent: &Lent, ds: Span, numbers: Span, n: u32) -> Verdict
    ensures { least result ≡ least_of (pools_of lent.now) (least verdict) (measures_causes ds numbers n) }
{
    verdict
        .test(lent, Refusal::Columns, Test::Column(Pool::Dists, ds, n))
        .test(
            lent,
            Refusal::Columns,
            Test::Column(Pool::Reals, numbers, numbers.n),
        )
        .test(lent, Refusal::Number, Test::NotFinite(ds, Mark::ALL))
        .test(lent, Refusal::Number, Test::NotANumber(numbers))
}
