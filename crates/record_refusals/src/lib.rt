// What backfill of a trip's records is refused for: the first refusal of what is lent beside the records, and of that with the records' faults and
// the columns' rows.
#![tactic(auto)]

ghost use Rattle.std.specs.Prelude.{◌≡◌, []};
ghost use Rattle.tables.specs.Pools.{pools_of};
ghost use Rattle.tables.specs.Bounds.{chart_bounds};
ghost use Rattle.verdicts.specs.Refuse.{refusal_of};
ghost use Rattle.record_refusals.specs.Verdict.{lent_causes, earlier, numbered, over_of, short_of, verdict_of};

use ids::Lent;
use record_faults::Faults;
use refusals::number_or_zero;
use tables::{Bounds, Points, Stops};
use verdicts::Verdict;

// The stops, and the points of the trip's shape.
#[repr(C)]
#[derive(Clone, Copy)]
pub struct LentRecords {
    pub stops: Stops,
    pub line: Points,
}

// The first refusal of what is lent beside the records, or 0.
pub fn check_lent(lent: &Lent, l: LentRecords) -> u32
    ensures { result ≡ refusal_of (pools_of lent.now) (lent_causes chart_bounds l) }
{
    let b = Bounds::chart();
    let stops = stop_rules::stops(Verdict::new(), lent, b, l.stops);
    let line = shape_rules::points_within(stops, lent, l.line, b.points);
    number_or_zero(&line.finish())
}

// The earlier of two refusals, of which 0 is none.
#[tactic(auto, unfolding(crate::specs::Verdict::earlier))]
fn earlier(a: u32, b: u32) -> u32
    ensures { result ≡ earlier a b }
{
    if a == 0 {
        return b;
    }
    if b == 0 {
        return a;
    }
    if a < b {
        return a;
    }
    b
}

// A refusal's number where a flag is not 0.
#[tactic(auto, unfolding(crate::specs::Verdict::numbered))]
fn numbered(flag: u32, number: u32) -> u32
    ensures { result ≡ numbered flag number }
{
    if flag == 0 {
        return 0;
    }
    number
}

// 2 for more records than a table of stop times may have rows.
#[tactic(auto, unfolding(crate::specs::Verdict::over_of))]
fn over(n: usize) -> u32
    ensures { result ≡ over_of n }
{
    if 1000000 < n {
        return 2;
    }
    0
}

// 9 where one of the columns has fewer rows than there are records.
#[tactic(auto, unfolding(crate::specs::Verdict::short_of))]
fn short(n: usize, a: usize, d: usize, k: usize) -> u32
    ensures { result ≡ short_of n a d k }
{
    if a < n || d < n || k < n {
        return 9;
    }
    0
}

// The first refusal that applies, or 0: of the records' faults, of what is lent beside them, and of the columns' rows.
#[tactic(auto, unfolding(crate::specs::Verdict::verdict_of))]
pub fn verdict(c: Faults, lent: u32, n: usize, a: usize, d: usize, k: usize) -> u32
    ensures { result ≡ verdict_of c lent n a d k }
{
    let tables = earlier(lent, over(n));
    let stops = earlier(tables, numbered(c.outside, 5));
    let dists = earlier(stops, numbered(c.infinite, 8));
    earlier(dists, short(n, a, d, k))
}
