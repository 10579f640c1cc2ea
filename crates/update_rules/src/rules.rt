// The rules of updates and of the sailing.
ghost use Rattle.std.specs.Prelude.{◌≡◌};
ghost use Rattle.tables.specs.Pools.{pools_of};
ghost use Rattle.verdicts.specs.Refuse.{least_of};
ghost use Rattle.verdicts.specs.Verdict.{least};
ghost use Rattle.update_rules.specs.Parts.{updates_causes, arrivals_causes, update_departures_causes, sailing_causes};

use column_order::Key;
use faults::Test;
use ids::Lent;
use refusals::Refusal;
use tables::{Bounds, Mark, Pool, Sailing, Updates};
use verdicts::Verdict;

// The updates, without their times.
pub fn updates(verdict: Verdict, lent: &Lent, b: Bounds, u: Updates) -> Verdict
    ensures { least result ≡ least_of (pools_of lent.now) (least verdict) (updates_causes b u) }
{
    let n = u.sequence.n;
    verdict
        .test_ids(lent, u.stop, Mark::where_set(u.named), false, n, b.id)
        .test(
            lent,
            Refusal::Columns,
            Test::Column(Pool::Words, u.sequence, n),
        )
        .test(
            lent,
            Refusal::Columns,
            Test::Column(Pool::Bytes, u.named, n),
        )
        .test(lent, Refusal::Count, Test::Over(n, b.updates))
        .test(
            lent,
            Refusal::Order,
            Test::Unsorted(Key::Word(u.sequence), n),
        )
}

// The arrivals of updates, and their delays.
pub fn arrivals(verdict: Verdict, lent: &Lent, u: Updates) -> Verdict
    ensures { least result ≡ least_of (pools_of lent.now) (least verdict) (arrivals_causes u) }
{
    let n = u.sequence.n;
    verdict
        .test(
            lent,
            Refusal::Columns,
            Test::Column(Pool::Times, u.arrival, n),
        )
        .test(
            lent,
            Refusal::Columns,
            Test::Column(Pool::Bytes, u.arrives, n),
        )
        .test(
            lent,
            Refusal::Columns,
            Test::Column(Pool::Times, u.arrdelay, n),
        )
        .test(
            lent,
            Refusal::Columns,
            Test::Column(Pool::Bytes, u.arrdelayed, n),
        )
        .test(
            lent,
            Refusal::Moment,
            Test::Moment(u.arrival, Mark::where_set(u.arrives)),
        )
}

// The departures of updates, and their delays.
pub fn update_departures(verdict: Verdict, lent: &Lent, u: Updates) -> Verdict
    ensures { least result ≡ least_of (pools_of lent.now) (least verdict) (update_departures_causes u) }
{
    let n = u.sequence.n;
    verdict
        .test(
            lent,
            Refusal::Columns,
            Test::Column(Pool::Times, u.departure, n),
        )
        .test(
            lent,
            Refusal::Columns,
            Test::Column(Pool::Bytes, u.departs, n),
        )
        .test(
            lent,
            Refusal::Columns,
            Test::Column(Pool::Times, u.depdelay, n),
        )
        .test(
            lent,
            Refusal::Columns,
            Test::Column(Pool::Bytes, u.depdelayed, n),
        )
        .test(
            lent,
            Refusal::Moment,
            Test::Moment(u.departure, Mark::where_set(u.departs)),
        )
}

// The sailing.
pub fn sailing(verdict: Verdict, lent: &Lent, b: Bounds, s: Sailing) -> Verdict
    ensures { least result ≡ least_of (pools_of lent.now) (least verdict) (sailing_causes b s) }
{
    verdict
        .test_all_ids(lent, s.feed, 1, b.id)
        .test_all_ids(lent, s.key, 1, b.id)
        .test_ids(lent, s.route, Mark::where_set(s.routed), false, 1, b.id)
        .test(
            lent,
            Refusal::Columns,
            Test::Column(Pool::Bytes, s.routed, 1),
        )
        .test(
            lent,
            Refusal::Columns,
            Test::Column(Pool::Bytes, s.cancelled, 1),
        )
        .test(lent, Refusal::Columns, Test::Column(Pool::Times, s.now, 1))
        .test(
            lent,
            Refusal::Columns,
            Test::Column(Pool::Times, s.offset, 1),
        )
        .test(lent, Refusal::Moment, Test::Moment(s.now, Mark::ALL))
        .test(lent, Refusal::Moment, Test::Offset(s.offset))
}
