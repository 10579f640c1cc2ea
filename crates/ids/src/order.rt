// The order of texts: byte by byte, and a text before those that extend it. Ids ascend in it.
ghost use Rattle.std.specs.Prelude.{◌≡◌};
ghost use Rattle.ids.specs.Cmp.{cmp};

use std::cmp::Ordering;

// How a stands to b.
#[tactic(auto, using(crate::proofs::SliceOrder::cmp_is))]
pub fn compare(a: &[u8], b: &[u8]) -> Ordering
    ensures { result ≡ cmp a.now b.now }
{
    a.cmp(b)
}
