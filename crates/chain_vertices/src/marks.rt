// A bit a row: whether it is kept.
ghost use Rattle.std.specs.Prelude.{◌≡◌, ℕ, ◌*◌, ◌/◌, ◌%◌, ◌^◌, ◌<◌, ◌≤◌, length, get_or};
ghost use Rattle.chain_lines.specs.Chain.{stop_of};
ghost use Rattle.chain_lines.specs.Stops.{points_below};
ghost use Rattle.chain_lines.specs.Thin.{thinned};
ghost use Rattle.chain_vertices.specs.Marks.{is_marked, put_of, Marked};

use chain_lines::{Last, after, keeps, no_point, stop_of};
use chain_rows::Chain;
use ids::Lent;
use tables::{StopTimes, Stops};

// Sets bit i to `bit`, of a word that has none from it on.
fn put(marks: &mut [u64], i: usize, bit: bool)
    requires i_in_bounds { i / 64 < length marks.old }
    requires i_bound { get_or marks.old (i / 64) 0 < 2 ^ (i % 64) }
    ensures { marks.new ≡ put_of marks.old i bit }
{
    if bit {
        marks[i / 64] += 1 << (i % 64);
    }
}

// Whether bit i is set.
pub fn marked(marks: &[u64], i: usize) -> bool
    ensures { result ≡ is_marked marks.now i }
{
    let w = i / 64;
    w < marks.len() && marks[w] / (1 << (i % 64)) % 2 == 1
}

// Marks the rows that are kept, and says how many they are.
pub fn mark(lent: &Lent, s: Stops, c: StopTimes, chain: Chain, marks: &mut [u64]) -> usize
    requires count_bound { chain.count ≤ 64 * length marks.old }
    requires by_index { (w : ℕ) → get_or marks.old w 0 ≡ 0 }
    ensures value { result ≡ length (thinned (points_below (stop_of lent.now.bytes.now lent.now.words.now lent.now.reals.now s c chain) chain.count)) }
    ensures marked { Marked (stop_of lent.now.bytes.now lent.now.words.now lent.now.reals.now s c chain) chain.count marks.new }
{
    let mut last = Last {
        kept: 0,
        at: no_point(),
    };
    for i in 0..chain.count as usize {
        let stop = stop_of(lent, s, c, chain, i);
        let keep = keeps(last, stop);
        put(marks, i, keep);
        last = after(last, stop, keep);
    }
    last.kept
}
