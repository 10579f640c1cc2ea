// The rules of the stops: the least refusal with their causes, from the least so far on.
ghost use Rattle.std.specs.Prelude.{◌≡◌};
ghost use Rattle.tables.specs.Pools.{pools_of};
ghost use Rattle.verdicts.specs.Refuse.{least_of};
ghost use Rattle.verdicts.specs.Verdict.{least};
ghost use Rattle.stop_rules.specs.Parts.{stops_causes};

use faults::Test;
use ids::Lent;
use refusals::Refusal;
use tables::{Bounds, Mark, Pool, Stops};
use verdicts::Verdict;

// The stops: their positions, and their ids, of which the raw one may be empty.
pub fn stops(verdict: Verdict, lent: &Lent, b: Bounds, s: Stops) -> Verdict
    ensures { least result ≡ least_of (pools_of lent.now) (least verdict) (stops_causes b s) }
{
    let n = s.lat.n;
    verdict
        .test(lent, Refusal::Columns, Test::Column(Pool::Reals, s.lat, n))
        .test(lent, Refusal::Columns, Test::Column(Pool::Reals, s.lon, n))
        .test(
            lent,
            Refusal::Columns,
            Test::Column(Pool::Bytes, s.positioned, n),
        )
        .test(lent, Refusal::Count, Test::Over(n, b.stops))
        .test(
            lent,
            Refusal::Position,
            Test::OffGlobe(s.lat, s.lon, Mark::where_set(s.positioned)),
        )
        .test_all_ids(lent, s.own, n, b.id)
        .test_ids(lent, s.raw, Mark::ALL, true, n, b.id)
}
