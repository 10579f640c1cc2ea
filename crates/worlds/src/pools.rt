// The five pools of a test's world: what a script puts into them, and what of them the operations are lent.
ghost use Rattle.std.specs.Prelude.{◌≡◌, ◌<◌, ◌≤◌, ◌↔◌, IsTrue, get_or, length, slice_set};
ghost use Rattle.tables.specs.Pools.{part_of};

use crate::layout::pool;
use ids::Lent;
use tables::cut;

/// The pools that a test program fills.
#[derive(Drop)]
pub struct Pools<'a> {
    pub bytes: &'a mut [u8],
    pub words: &'a mut [u32],
    pub times: &'a mut [i64],
    pub reals: &'a mut [f64],
    pub dists: &'a mut [f32],
}

impl Pools<'_> {
    /// What the words that lay the world out say that it has of each pool.
    pub fn lent(&self) -> Lent<'_>
        ensures bytes { result.bytes.now ≡ part_of self.now.bytes.now (record { at = 0; n = get_or self.now.words.now 7 0 }) }
        ensures words { result.words.now ≡ part_of self.now.words.now (record { at = 0; n = get_or self.now.words.now 8 0 }) }
        ensures times { result.times.now ≡ part_of self.now.times.now (record { at = 0; n = get_or self.now.words.now 9 0 }) }
        ensures reals { result.reals.now ≡ part_of self.now.reals.now (record { at = 0; n = get_or self.now.words.now 10 0 }) }
        ensures dists { result.dists.now ≡ part_of self.now.dists.now (record { at = 0; n = get_or self.now.words.now 11 0 }) }
    {
        Lent {
            bytes: cut(self.bytes, pool(self.words, 0)),
            words: cut(self.words, pool(self.words, 1)),
            times: cut(self.times, pool(self.words, 2)),
            reals: cut(self.reals, pool(self.words, 3)),
            dists: cut(self.dists, pool(self.words, 4)),
        }
    }
}

/// Writes a value to a place of a pool, and says whether the pool has that place: one that has not stays as it was.
pub fn put<T: Copy>(pool: &mut [T], at: usize, value: T) -> bool
    ensures told { IsTrue result ↔ (at < length pool.old) }
    ensures written { at < length pool.old → pool.new ≡ slice_set pool.old at value }
    ensures kept { length pool.old ≤ at → pool.new ≡ pool.old }
{
    let has = at < pool.len();
    if has {
        pool[at] = value;
    }
    has
}
