// The distance that the timetable has for a sequence: that of the first row of the trip with it, if it has one.
ghost use Rattle.std.specs.Prelude.{◌≡◌};
ghost use Rattle.ids.specs.First.{first};
ghost use Rattle.courses.specs.Course.{row_after};
ghost use Rattle.seq_distances.specs.Dist.{has_sequence, row_dist, seq_dist};

use courses::{Course, flagged};
use ids::{Lent, Span, cell};
use trip_rows::row_or;

// The first row with a sequence, of n rows from `from` on.
#[tactic(auto, using(ids::proofs::Search::first_miss))]
fn seq_row(words: &[u32], column: Span, from: u32, n: u32, sequence: u32) -> Option<usize>
    ensures { result ≡ row_after from (first (has_sequence words.now column from sequence) n) }
{
    for k in 0..n as usize {
        let row = from as usize + k;
        if cell(words, column, row) == sequence {
            return Some(row);
        }
    }
    None
}

// The distance of a row that is found, if it has one.
fn row_dist(lent: &Lent, c: Course, row: Option<usize>) -> Option<f32>
    ensures { result ≡ row_dist lent.now.bytes.now lent.now.dists.now c row }
{
    let measured = c.times.measured;
    let column = c.times.dist;
    let Some(row) = row else {
        return None;
    };
    if flagged(lent.bytes, measured, row) {
        return Some(row_or(lent.dists, column, row, f32::NAN));
    }
    None
}

// The distance of a trip's first row with a sequence.
#[tactic(auto, unfolding(crate::specs::Dist::seq_dist))]
pub fn seq_dist(lent: &Lent, c: Course, trip: usize, sequence: u32) -> Option<f32>
    ensures { result ≡ seq_dist lent.now.bytes.now lent.now.words.now lent.now.dists.now c trip sequence }
{
    let firsts = c.trips.first;
    let counts = c.trips.count;
    let column = c.times.sequence;
    let from = cell(lent.words, firsts, trip);
    let n = cell(lent.words, counts, trip);
    row_dist(lent, c, seq_row(lent.words, column, from, n, sequence))
}
