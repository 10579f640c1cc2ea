// The last of a trip's rows with a sequence: a loop downwards from the row `end`.
ghost use Rattle.std.specs.Prelude.{◌≡◌, ◌-◌};
ghost use Rattle.row_tests.specs.Rows.{last_row, has_sequence};

use row_tests::with_sequence;
use tables::StopTimes;

// The last row before `end` with the sequence.
#[tactic(auto, using(row_tests::proofs::Rows::row_hit, row_tests::proofs::Rows::row_skip, row_tests::proofs::Rows::row_miss))]
pub fn last_with(
    words: &[u32],
    times: StopTimes,
    sequence: u32,
    from: u32,
    end: usize,
) -> Option<usize>
    ensures { result ≡ last_row (has_sequence words.now times sequence) from (end - from) }
{
    for row in (from as usize..end).rev() {
        if with_sequence(words, times, sequence, row) {
            return Some(row);
        }
    }
    None
}
