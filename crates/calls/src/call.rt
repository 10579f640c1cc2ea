// Which rows of the updates are calls: those with a time whose stop is found.
ghost use Rattle.std.specs.Prelude.{ℕ, ◌<◌, ◌≤◌, ◌≡◌, ◌++◌, length, drop, get_or};
ghost use Rattle.calls.specs.Calls.{Ready, call_stop, call_rows, call_stops};

use crate::stop::{Reported, update_stop};
use ids::Lent;
use update_rows::is_timed;

// The stop of row k, if it is a call.
#[tactic(auto, unfolding(crate::specs::Calls::call_stop))]
fn call_stop(lent: &Lent, v: Reported, k: usize) -> Option<usize>
    requires ready { Ready lent.now.bytes.now lent.now.words.now v }
    requires k_lt_n { k < v.updates.sequence.n }
    ensures { result ≡ call_stop lent.now.bytes.now lent.now.words.now v k }
{
    let u = v.updates;
    if is_timed(lent.bytes, u, k) {
        return update_stop(lent, v, k);
    }
    None
}

// Each word is below 2^32.
fn words_fit(words: &[u32])
    ensures { (i : ℕ) → get_or words.now i 0 < 4294967296 }
{}

// Writes the rows that are calls, in order, and their stops; how many there are.
pub fn collect(lent: &Lent, v: Reported, rows: &mut [u32], stops: &mut [u32]) -> usize
    requires ready { Ready lent.now.bytes.now lent.now.words.now v }
    requires n_in_bounds { v.updates.sequence.n ≤ length rows.old }
    requires n_in_bounds_2 { v.updates.sequence.n ≤ length stops.old }
    ensures value { result ≡ length (call_rows lent.now.bytes.now lent.now.words.now v) }
    ensures rows_after { rows.new ≡ call_rows lent.now.bytes.now lent.now.words.now v ++ drop (length (call_rows lent.now.bytes.now lent.now.words.now v)) rows.old }
    ensures stops_after { stops.new ≡ call_stops lent.now.bytes.now lent.now.words.now v ++ drop (length (call_stops lent.now.bytes.now lent.now.words.now v)) stops.old }
{
    let sequence = v.updates.sequence;
    words_fit(lent.words);
    let mut n = 0;
    for k in 0..sequence.n as usize {
        let Some(stop) = call_stop(lent, v, k) else {
            continue;
        };
        rows[n] = k as u32;
        stops[n] = stop as u32;
        n += 1;
    }
    n
}
