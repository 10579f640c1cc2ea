// The unit that a ratio is near.
ghost use Rattle.std.specs.Prelude.{◌≡◌};
ghost use Rattle.tables.specs.Pools.{pools};
ghost use Rattle.calibrate.specs.Answers.{snapped_of};
ghost use Rattle.line_told.specs.Told.{scale_told};

use calibrate::snap_unit_scale;
use ids::{Lent, Span};
use line_told::{ScaleTold, tell_scale};
use tables::{Points, Samples};

// The ratio is the first of the numbers.
#[unsafe(no_mangle)]
pub extern "C" fn zebumorn_snap_scale(
    bytes: &[u8],
    words: &[u32],
    times: &[i64],
    reals: &[f64],
    dists: &[f32],
    line: Points,
    at: Points,
    dist: Span,
    numbers: Span,
) -> ScaleTold
    ensures { result ≡ scale_told (snapped_of (pools bytes.now words.now times.now reals.now dists.now) (record { line = line; at = at; dist = dist; numbers = numbers })) }
{
    let lent = Lent {
        bytes,
        words,
        times,
        reals,
        dists,
    };
    let s = Samples {
        line,
        at,
        dist,
        numbers,
    };
    tell_scale(snap_unit_scale(&lent, s))
}
