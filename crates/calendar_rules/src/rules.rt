// The rules of calendars, ranges and exceptions.
ghost use Rattle.std.specs.Prelude.{◌≡◌};
ghost use Rattle.tables.specs.Pools.{pools_of};
ghost use Rattle.verdicts.specs.Refuse.{least_of};
ghost use Rattle.verdicts.specs.Verdict.{least};
ghost use Rattle.calendar_rules.specs.Parts.{calendars_causes, ranges_causes, exceptions_causes};

use column_order::Key;
use faults::Test;
use ids::Lent;
use refusals::Refusal;
use tables::{Bounds, Calendars, Exceptions, Pool, Ranges};
use verdicts::Verdict;

// The feeds that have a calendar.
pub fn calendars(verdict: Verdict, lent: &Lent, b: Bounds, c: Calendars) -> Verdict
    ensures { least result ≡ least_of (pools_of lent.now) (least verdict) (calendars_causes b c) }
{
    let n = c.feed.starts.n;
    verdict
        .test_all_ids(lent, c.feed, n, b.id)
        .test(lent, Refusal::Count, Test::Over(n, b.others))
        .test(lent, Refusal::Order, Test::Unsorted(Key::Id(c.feed), n))
}

// The ranges of services.
pub fn ranges(verdict: Verdict, lent: &Lent, b: Bounds, g: Ranges) -> Verdict
    ensures { least result ≡ least_of (pools_of lent.now) (least verdict) (ranges_causes b g) }
{
    let n = g.first.n;
    verdict
        .test_all_ids(lent, g.feed, n, b.id)
        .test_all_ids(lent, g.service, n, b.id)
        .test(
            lent,
            Refusal::Columns,
            Test::Column(Pool::Words, g.first, n),
        )
        .test(lent, Refusal::Columns, Test::Column(Pool::Words, g.last, n))
        .test(
            lent,
            Refusal::Columns,
            Test::Column(Pool::Bytes, g.weekdays, n),
        )
        .test(lent, Refusal::Count, Test::Over(n, b.others))
        .test(
            lent,
            Refusal::Order,
            Test::Unsorted(Key::Ids(g.feed, g.service), n),
        )
        .test(lent, Refusal::Date, Test::NoDate(g.first))
        .test(lent, Refusal::Date, Test::NoDate(g.last))
}

// The exceptions of services.
pub fn exceptions(verdict: Verdict, lent: &Lent, b: Bounds, e: Exceptions) -> Verdict
    ensures { least result ≡ least_of (pools_of lent.now) (least verdict) (exceptions_causes b e) }
{
    let n = e.date.n;
    verdict
        .test_all_ids(lent, e.feed, n, b.id)
        .test_all_ids(lent, e.service, n, b.id)
        .test(lent, Refusal::Columns, Test::Column(Pool::Words, e.date, n))
        .test(
            lent,
            Refusal::Columns,
            Test::Column(Pool::Bytes, e.removed, n),
        )
        .test(lent, Refusal::Count, Test::Over(n, b.others))
        .test(
            lent,
            Refusal::Order,
            Test::Unsorted(Key::Dated(e.feed, e.service, e.date, e.removed), n),
        )
        .test(lent, Refusal::Date, Test::NoDate(e.date))
}
