// The digits of a stop's text, by which the stop may be known: `extract_stop_digits` of the Rust's rt/estimate.rs.
ghost use Rattle.std.specs.Prelude.{◌≡◌};
ghost use Rattle.stop_digits.specs.Stops.{digits_first, digits_last, marked_digits, stop_digits_of};

use parts::{first, from, if_long, past_place};

// The digits at the beginning.
fn digits_first<'a>(s: &'a [u8]) -> &'a [u8]
    ensures { result.now ≡ digits_first s.now }
{
    first(s, text_runs::digit_run(s))
}

// Those after the first ":Q:"; four at least.
fn marked_digits<'a>(s: &'a [u8]) -> &'a [u8]
    ensures { result.now ≡ marked_digits s.now }
{
    if_long(
        digits_first(past_place(s, texts::first_place(s, b":Q:"), 3)),
        4,
    )
}

// The digits at the end; four at least.
fn digits_last<'a>(s: &'a [u8]) -> &'a [u8]
    ensures { result.now ≡ digits_last s.now }
{
    if_long(from(s, text_runs::digits_at(s)), 4)
}

// Those after the first ":Q:", or else those at the end: 412986 of "STIF:StopPoint:Q:412986:", 5678 of "A:Q:12:5678".
pub fn stop_digits<'a>(s: &'a [u8]) -> &'a [u8]
    ensures { result.now ≡ stop_digits_of s.now }
{
    let marked = marked_digits(s);
    if marked.len() == 0 {
        return digits_last(s);
    }
    marked
}
