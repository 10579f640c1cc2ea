// The first and the last of a trip's rows that passes a test: a loop for each test, upwards from the row `from`, or downwards from the row `end`.
ghost use Rattle.std.specs.Prelude.{◌≡◌, ◌-◌};
ghost use Rattle.row_tests.specs.Rows.{first_row, last_row, is_placed, placed_target, is_from};

use ids::Lent;
use row_tests::{from_sequence, placed, placed_target};
use tables::{StopTimes, Stops};

// The first of n rows that is the call, and positioned.
#[tactic(auto, using(ids::proofs::Search::first_miss))]
pub fn first_target(
    lent: &Lent,
    times: StopTimes,
    stops: Stops,
    sequence: u32,
    stop: usize,
    from: u32,
    n: u32,
) -> Option<usize>
    ensures { result ≡ first_row (placed_target lent.now.bytes.now lent.now.words.now times stops sequence stop) from n }
{
    for k in 0..n as usize {
        let row = from as usize + k;
        if placed_target(lent, times, stops, sequence, stop, row) {
            return Some(row);
        }
    }
    None
}

// The first of n rows from the sequence on.
#[tactic(auto, using(ids::proofs::Search::first_miss))]
pub fn first_from(
    words: &[u32],
    times: StopTimes,
    sequence: u32,
    from: u32,
    n: u32,
) -> Option<usize>
    ensures { result ≡ first_row (is_from words.now times sequence) from n }
{
    for k in 0..n as usize {
        let row = from as usize + k;
        if from_sequence(words, times, sequence, row) {
            return Some(row);
        }
    }
    None
}

// The last positioned row before `end`.
#[tactic(auto, using(row_tests::proofs::Rows::row_hit, row_tests::proofs::Rows::row_skip, row_tests::proofs::Rows::row_miss))]
pub fn last_placed(
    lent: &Lent,
    times: StopTimes,
    stops: Stops,
    from: u32,
    end: usize,
) -> Option<usize>
    ensures { result ≡ last_row (is_placed lent.now.bytes.now lent.now.words.now times stops) from (end - from) }
{
    for row in (from as usize..end).rev() {
        if placed(lent, times, stops, row) {
            return Some(row);
        }
    }
    None
}
