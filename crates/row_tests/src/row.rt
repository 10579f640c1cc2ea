// Tests of a row of the stop times: whether its stop is positioned, whether it is the call that is sailed to, and its sequence.
ghost use Rattle.std.specs.Prelude.{◌≡◌};
ghost use Rattle.row_tests.specs.Rows.{is_placed, is_named, is_target, placed_target, is_from, has_sequence};

use courses::flagged;
use ids::{Lent, cell, id};
use tables::{StopTimes, Stops};
use texts::{contains, same};

// Whether the row's stop has a position.
pub fn placed(lent: &Lent, times: StopTimes, stops: Stops, row: usize) -> bool
    ensures { result ≡ is_placed lent.now.bytes.now lent.now.words.now times stops row }
{
    let column = times.stop;
    let positioned = stops.positioned;
    flagged(
        lent.bytes,
        positioned,
        cell(lent.words, column, row) as usize,
    )
}

// Whether the stop `at` has the stop's own id, or a raw id that stands in that id.
fn named(lent: &Lent, stops: Stops, stop: usize, at: usize) -> bool
    ensures { result ≡ is_named lent.now.bytes.now lent.now.words.now stops stop at }
{
    let own = stops.own;
    let raw = stops.raw;
    let target = id(lent, own, stop);
    if same(id(lent, own, at), target) {
        return true;
    }
    let part = id(lent, raw, at);
    if part.len() == 0 {
        return false;
    }
    contains(target, part)
}

// Whether the row is the call at the stop with the sequence: by its stop, its sequence or its stop's ids.
fn is_target(
    lent: &Lent,
    times: StopTimes,
    stops: Stops,
    sequence: u32,
    stop: usize,
    row: usize,
) -> bool
    ensures { result ≡ is_target lent.now.bytes.now lent.now.words.now times stops sequence stop row }
{
    let column = times.stop;
    let sequences = times.sequence;
    let at = cell(lent.words, column, row) as usize;
    if at == stop {
        return true;
    }
    if cell(lent.words, sequences, row) == sequence {
        return true;
    }
    named(lent, stops, stop, at)
}

// Whether it is that and its stop has a position.
pub fn placed_target(
    lent: &Lent,
    times: StopTimes,
    stops: Stops,
    sequence: u32,
    stop: usize,
    row: usize,
) -> bool
    ensures { result ≡ placed_target lent.now.bytes.now lent.now.words.now times stops sequence stop row }
{
    if placed(lent, times, stops, row) {
        return is_target(lent, times, stops, sequence, stop, row);
    }
    false
}

// Whether the row has the sequence or one above it. A sequence of 0 has no such row.
pub fn from_sequence(words: &[u32], times: StopTimes, sequence: u32, row: usize) -> bool
    ensures { result ≡ is_from words.now times sequence row }
{
    let sequences = times.sequence;
    if sequence == 0 {
        return false;
    }
    sequence <= cell(words, sequences, row)
}

// Whether the row has the sequence.
pub fn with_sequence(words: &[u32], times: StopTimes, sequence: u32, row: usize) -> bool
    ensures { result ≡ has_sequence words.now times sequence row }
{
    let sequences = times.sequence;
    cell(words, sequences, row) == sequence
}
