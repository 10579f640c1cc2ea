// What backfill may turn a trip's records down for, found where they lie: a stop that is not in the table, a distance that is not finite.
// What one record adds is a function of its own.
#![tactic(auto)]

ghost use Rattle.std.specs.Prelude.{◌≡◌, fold};
ghost use Rattle.column_floats.specs.Real.{is_finite};
ghost use Rattle.record_faults.specs.Faults.{outside_of, infinite_of, step_of};

use stop_record::StopTime;

// Each is 1 where some record is at fault, and else 0.
#[derive(Clone, Copy)]
pub struct Faults {
    pub outside: u32,
    pub infinite: u32,
}

// Whether x is neither NaN nor an infinity.
fn finite(x: f32) -> bool
    ensures { result ≡ is_finite x }
{
    x.is_finite()
}

// With one more stop, of so many in the table.
#[tactic(auto, unfolding(crate::specs::Faults::outside_of))]
fn outside(before: u32, stop: u32, stops: u32) -> u32
    ensures { result ≡ outside_of before stop stops }
{
    if stops <= stop {
        return 1;
    }
    before
}

// With one more record; a value that is no distance is not tested.
#[tactic(auto, unfolding(crate::specs::Faults::infinite_of))]
fn infinite(before: u32, s: StopTime) -> u32
    ensures { result ≡ infinite_of before s }
{
    if !s.measured || finite(s.dist) {
        return before;
    }
    1
}

// What is at fault so far, with one more record.
pub fn step(c: Faults, s: StopTime, stops: u32) -> Faults
    ensures { result ≡ step_of stops c s }
{
    Faults {
        outside: outside(c.outside, s.stop, stops),
        infinite: infinite(c.infinite, s),
    }
}

// What is at fault in the records, beside what was before.
pub fn scan(r: &[StopTime], stops: u32, start: Faults) -> Faults
    ensures { result ≡ fold (step_of stops) start r.now }
{
    r.iter().fold(start, |c, s| step(c, *s, stops))
}
