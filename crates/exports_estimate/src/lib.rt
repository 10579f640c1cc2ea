// The C name of the estimate. It answers what `estimate::estimate` does, as one struct of numbers; nothing that is lent is written.
#![tactic(auto)]

ghost use Rattle.std.specs.Prelude.{◌≡◌};
ghost use Rattle.tables.specs.Pools.{pools};
ghost use Rattle.estimate.specs.Answers.{estimate_of};
ghost use Rattle.estimate_told.specs.Told.{told_of};

use estimate::estimate;
use estimate_told::{Told, tell};
use ids::Lent;
use tables::Tables;

#[unsafe(no_mangle)]
pub extern "C" fn zebumorn_estimate(
    bytes: &[u8],
    words: &[u32],
    times: &[i64],
    reals: &[f64],
    dists: &[f32],
    t: Tables,
) -> Told
    ensures { result ≡ told_of (estimate_of (pools bytes.now words.now times.now reals.now dists.now) t) }
{
    let lent = Lent {
        bytes,
        words,
        times,
        reals,
        dists,
    };
    tell(estimate(&lent, t))
}
