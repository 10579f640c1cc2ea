// The rules of what matching, a calendar or a leg is asked of.
ghost use Rattle.std.specs.Prelude.{◌≡◌};
ghost use Rattle.tables.specs.Pools.{pools_of};
ghost use Rattle.verdicts.specs.Refuse.{least_of};
ghost use Rattle.verdicts.specs.Verdict.{least};
ghost use Rattle.asked_rules.specs.Parts.{journey_causes, service_causes, leg_asked_causes};

use faults::Test;
use ids::Lent;
use refusals::Refusal;
use tables::{Bounds, Journey, LegAsked, Mark, Pool, Service};
use verdicts::Verdict;

// What matching is asked of.
pub fn journey(verdict: Verdict, lent: &Lent, b: Bounds, j: Journey) -> Verdict
    ensures { least result ≡ least_of (pools_of lent.now) (least verdict) (journey_causes b j) }
{
    verdict
        .test_all_ids(lent, j.key, 1, b.id)
        .test_ids(lent, j.route, Mark::where_set(j.routed), false, 1, b.id)
        .test(
            lent,
            Refusal::Columns,
            Test::Column(Pool::Bytes, j.routed, 1),
        )
        .test(
            lent,
            Refusal::Columns,
            Test::Column(Pool::Times, j.departure, 1),
        )
        .test(
            lent,
            Refusal::Columns,
            Test::Column(Pool::Bytes, j.departs, 1),
        )
        .test(
            lent,
            Refusal::Columns,
            Test::Column(Pool::Times, j.offset, 1),
        )
        .test(
            lent,
            Refusal::Moment,
            Test::Moment(j.departure, Mark::where_set(j.departs)),
        )
        .test(lent, Refusal::Moment, Test::Offset(j.offset))
}

// What a calendar is asked of.
pub fn service(verdict: Verdict, lent: &Lent, b: Bounds, s: Service) -> Verdict
    ensures { least result ≡ least_of (pools_of lent.now) (least verdict) (service_causes b s) }
{
    verdict
        .test_all_ids(lent, s.feed, 1, b.id)
        .test_all_ids(lent, s.service, 1, b.id)
        .test(lent, Refusal::Columns, Test::Column(Pool::Words, s.date, 1))
        .test(lent, Refusal::Date, Test::NoDate(s.date))
}

// The trip that a leg is asked of.
pub fn leg_asked(verdict: Verdict, lent: &Lent, b: Bounds, l: LegAsked) -> Verdict
    ensures { least result ≡ least_of (pools_of lent.now) (least verdict) (leg_asked_causes b l) }
{
    verdict.test_ids(lent, l.trip, Mark::ALL, false, 1, b.id)
}
