// What a row of the updates says.
ghost use Rattle.std.specs.Prelude.{◌+◌, ◌≡◌, pos, get_or};
ghost use Rattle.update_rows.specs.Updates.{moment_of, moment_at, is_set, moment_or, is_timed};

use ids::{Lent, Span};
use tables::Updates;

// Whether row k of a column of flags is set.
pub fn is_set(bytes: &[u8], span: Span, k: usize) -> bool
    ensures { result ≡ is_set bytes.now span k }
{
    if columns::bit(bytes, span, k) == 0 {
        return false;
    }
    true
}

// A time as a moment; one below 0, which no check passes, is 0.
fn moment_of(t: i64) -> u64
    ensures { result ≡ moment_of t }
{
    if t < 0 {
        return 0;
    }
    t as u64
}

// Row k of a column of times, or 0 past the end of the pool.
pub fn time(times: &[i64], span: Span, k: usize) -> i64
    ensures { result ≡ get_or times.now (span.at + k) (pos 0) }
{
    if times.len() <= k {
        return 0;
    }
    let at = span.at as usize + k;
    if times.len() <= at {
        return 0;
    }
    times[at]
}

// The same as a moment.
pub fn moment_at(times: &[i64], span: Span, k: usize) -> u64
    ensures { result ≡ moment_at times.now span k }
{
    moment_of(time(times, span, k))
}

// Row k of a column of times, where it is set, or else of another.
pub fn moment_or(lent: &Lent, has: Span, own: Span, other: Span, k: usize) -> u64
    ensures { result ≡ moment_or lent.now.bytes.now lent.now.times.now has own other k }
{
    if is_set(lent.bytes, has, k) {
        return moment_at(lent.times, own, k);
    }
    moment_at(lent.times, other, k)
}

// Whether row k has a time.
pub fn is_timed(bytes: &[u8], u: Updates, k: usize) -> bool
    ensures { result ≡ is_timed bytes.now u k }
{
    let arrives = u.arrives;
    let departs = u.departs;
    if is_set(bytes, arrives, k) {
        return true;
    }
    is_set(bytes, departs, k)
}
