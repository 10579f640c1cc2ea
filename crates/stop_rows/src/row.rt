// A stop by its sequence in a trip.
ghost use Rattle.std.specs.Prelude.{◌≡◌};
ghost use Rattle.ids.specs.First.{first};
ghost use Rattle.stop_rows.specs.Rows.{is_row, row_from, stop_from, row_stop};

use crate::lookup::{Lookup, is_positioned};
use ids::Lent;

// Whether row k of the stop times has the sequence, and its stop a position.
#[tactic(auto, unfolding(crate::specs::Rows::is_row))]
fn is_row(lent: &Lent, l: Lookup, sequence: u32, k: usize) -> bool
    ensures { result ≡ is_row lent.now.bytes.now lent.now.words.now l sequence k }
{
    let sequences = l.times.sequence;
    let column = l.times.stop;
    let stops = l.stops;
    ids::cell(lent.words, sequences, k) == sequence
        && is_positioned(lent.bytes, stops, ids::cell(lent.words, column, k) as usize)
}

// The stop of the first such row, of n rows from `from` on.
#[tactic(auto, using(ids::proofs::Search::first_miss))]
fn stop_among(lent: &Lent, l: Lookup, sequence: u32, from: u32, n: u32) -> Option<usize>
    ensures { result ≡ stop_from lent.now.bytes.now lent.now.words.now l from (first (row_from lent.now.bytes.now lent.now.words.now l sequence from) n) }
{
    let column = l.times.stop;
    for k in 0..n as usize {
        let row = from as usize + k;
        if is_row(lent, l, sequence, row) {
            return Some(ids::cell(lent.words, column, row) as usize);
        }
    }
    None
}

// The stop of a trip's first such row.
pub fn row_stop(lent: &Lent, l: Lookup, trip: usize, sequence: u32) -> Option<usize>
    ensures { result ≡ row_stop lent.now.bytes.now lent.now.words.now l trip sequence }
{
    let firsts = l.trips.first;
    let counts = l.trips.count;
    let from = ids::cell(lent.words, firsts, trip);
    let n = ids::cell(lent.words, counts, trip);
    stop_among(lent, l, sequence, from, n)
}
