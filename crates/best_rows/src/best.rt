// The row that serves best where there is no call: the choice of `pin_at_best_stop`.
ghost use Rattle.std.specs.Prelude.{◌≡◌};
ghost use Rattle.best_rows.specs.Serving.{better, has_signal, score_of, best_row};

use ids::Lent;
use tables::Updates;
use update_rows::{is_set, is_timed};

// Whether row k has a time or a delay.
#[tactic(auto, unfolding(crate::specs::Serving::has_signal))]
fn has_signal(bytes: &[u8], u: Updates, k: usize) -> bool
    ensures { result ≡ has_signal bytes.now u k }
{
    let arrivals = u.arrdelayed;
    let departures = u.depdelayed;
    is_timed(bytes, u, k) || is_set(bytes, arrivals, k) || is_set(bytes, departures, k)
}

// A million where row k has a time or a delay, and its sequence.
#[tactic(auto, unfolding(crate::specs::Serving::score_of))]
fn score(lent: &Lent, u: Updates, k: usize) -> u64
    ensures { result ≡ score_of lent.now.bytes.now u lent.now.words.now k }
{
    let sequence = u.sequence;
    if has_signal(lent.bytes, u, k) {
        return 1000000 + ids::cell(lent.words, sequence, k) as u64;
    }
    ids::cell(lent.words, sequence, k) as u64
}

// The best so far or, where its score is greater, row k.
fn better_of(lent: &Lent, u: Updates, best: Option<usize>, k: usize) -> Option<usize>
    ensures { result ≡ better (score_of lent.now.bytes.now u lent.now.words.now) best k }
{
    match best {
        Some(b) => {
            if score(lent, u, b) < score(lent, u, k) {
                return Some(k);
            }
            best
        }
        None => Some(k),
    }
}

// The row of the greatest score, the first where several have it; none where there are no updates.
#[tactic(auto, using(crate::proofs::Bests::best_next), unfolding(crate::specs::Serving::best_row, crate::specs::Serving::best_below))]
pub fn best_row(lent: &Lent, u: Updates) -> Option<usize>
    ensures { result ≡ best_row lent.now.bytes.now u lent.now.words.now }
{
    let sequence = u.sequence;
    let mut best = None;
    for k in 0..sequence.n as usize {
        best = better_of(lent, u, best, k);
    }
    best
}
