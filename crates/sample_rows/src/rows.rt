// Rows of the stop times: which are samples, and the first and the last that is.
ghost use Rattle.std.specs.Prelude.{◌≡◌};
ghost use Rattle.ids.specs.First.{first, last};
ghost use Rattle.courses.specs.Course.{row_after};
ghost use Rattle.sample_rows.specs.Samples.{is_sample, sample_from};

use courses::{Course, flagged};
use ids::Lent;

// Whether row k has a distance and its stop a position.
#[tactic(auto, unfolding(crate::specs::Samples::is_sample))]
fn is_sample(lent: &Lent, c: Course, k: usize) -> bool
    ensures { result ≡ is_sample lent.now.bytes.now lent.now.words.now c k }
{
    let stop = ids::cell(lent.words, c.times.stop, k) as usize;
    flagged(lent.bytes, c.times.measured, k) && flagged(lent.bytes, c.stops.positioned, stop)
}

// The first row that is a sample, of n rows from `from` on.
#[tactic(auto, using(ids::proofs::Search::first_miss))]
pub fn first_sample(lent: &Lent, c: Course, from: u32, n: u32) -> Option<usize>
    ensures { result ≡ row_after from (first (sample_from lent.now.bytes.now lent.now.words.now c from) n) }
{
    for k in 0..n as usize {
        let row = from as usize + k;
        if is_sample(lent, c, row) {
            return Some(row);
        }
    }
    None
}

// The last.
#[tactic(auto, using(ids::proofs::Search::last_hit, ids::proofs::Search::last_skip, ids::proofs::Search::last_miss))]
pub fn last_sample(lent: &Lent, c: Course, from: u32, n: u32) -> Option<usize>
    ensures { result ≡ row_after from (last (sample_from lent.now.bytes.now lent.now.words.now c from) n) }
{
    for k in (0..n as usize).rev() {
        let row = from as usize + k;
        if is_sample(lent, c, row) {
            return Some(row);
        }
    }
    None
}
