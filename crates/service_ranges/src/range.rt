// Whether a range of services has a day.
ghost use Rattle.std.specs.Prelude.{◌≡◌, get_or, ◌+◌};
ghost use Rattle.service_ranges.specs.Range.{on_weekday, in_range};

use ids::{Lent, Span};
use tables::Ranges;

// Row k of a column of bytes.
fn byte(bytes: &[u8], span: Span, k: usize) -> u8
    ensures { result ≡ get_or bytes.now (span.at + k) 0 }
{
    if bytes.len() <= k {
        return 0;
    }
    let at = span.at as usize + k;
    if bytes.len() <= at {
        return 0;
    }
    bytes[at]
}

// Whether the weekday of the day is one of those that a byte has, Monday lowest.
fn on_weekday(weekdays: u8, day: u32) -> bool
    ensures { result ≡ on_weekday weekdays day }
{
    let i = (day as u64 + 6) % 7;
    let w = weekdays as u64;
    w / (1 << i) % 2 == 1
}

// Whether row k of the ranges has the day, both ends included, and its weekday.
pub fn in_range(lent: &Lent, g: Ranges, day: u32, k: usize) -> bool
    ensures { result ≡ in_range lent.now.bytes.now lent.now.words.now g day k }
{
    let first = g.first;
    let last = g.last;
    let weekdays = g.weekdays;
    if (day as u64) < days::ordinal_of(ids::cell(lent.words, first, k)) {
        return false;
    }
    if days::ordinal_of(ids::cell(lent.words, last, k)) < day as u64 {
        return false;
    }
    on_weekday(byte(lent.bytes, weekdays, k), day)
}
