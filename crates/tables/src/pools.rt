// How long a pool is, and a column's part of its pool.
ghost use Rattle.std.specs.Prelude.{◌≡◌};
ghost use Rattle.tables.specs.Pools.{part_of, pools_of, pool_length};

use crate::mark::Pool;
use ids::{Lent, Span};

/// How many elements a pool has.
pub fn pool_length(lent: &Lent, pool: Pool) -> usize
    ensures { result ≡ pool_length (pools_of lent.now) pool }
{
    match pool {
        Pool::Bytes => lent.bytes.len(),
        Pool::Words => lent.words.len(),
        Pool::Times => lent.times.len(),
        Pool::Reals => lent.reals.len(),
        Pool::Dists => lent.dists.len(),
    }
}

/// A column's part of its pool, cut where the pool ends.
pub fn cut<'a, T>(pool: &'a [T], column: Span) -> &'a [T]
    ensures { result.now ≡ part_of pool.now column }
{
    let (_, rest) = pool.split_at(pool.len().min(column.at as usize));
    let (part, _) = rest.split_at(rest.len().min(column.n as usize));
    part
}
