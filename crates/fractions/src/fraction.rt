// How much of a leg has gone by, as a fraction: between two calls, and to the first call from the static stop before it.
ghost use Rattle.std.specs.Prelude.{◌≡◌, ◌-◌, max};
ghost use Rattle.fractions.specs.Fraction.{leg_fraction, approach_fraction, is_incoming};

use ieee::{clamp01, max_of};
use std::num::nearest_u64_to_f64;

// a less b, or 0.
fn less(a: u64, b: u64) -> u64
    ensures { result ≡ a - b }
{
    if a < b {
        return 0;
    }
    a - b
}

// At least one.
fn one_or_more(n: u64) -> u64
    ensures { result ≡ max n 1 }
{
    if n < 1 {
        return 1;
    }
    n
}

// Of the leg from a departure to the next arrival.
pub fn leg_fraction(clock: u64, departure: u64, arrival: u64) -> f64
    ensures { result ≡ leg_fraction clock departure arrival }
{
    let elapsed = nearest_u64_to_f64(less(clock, departure));
    let span = nearest_u64_to_f64(one_or_more(less(arrival, departure)));
    clamp01(elapsed / span)
}

// Of the leg to an arrival that takes `run` seconds by schedule, 30 at least.
pub fn approach_fraction(clock: u64, arrival: u64, run: u32) -> f64
    ensures { result ≡ approach_fraction clock arrival run }
{
    let remaining = nearest_u64_to_f64(less(arrival, clock));
    let scheduled = max_of(nearest_u64_to_f64(run as u64), 30.0);
    clamp01(1.0 - remaining / scheduled)
}

// Whether an approach is nearly over.
pub fn incoming(fraction: f64) -> bool
    ensures { result ≡ is_incoming fraction }
{
    fraction > 0.92
}
