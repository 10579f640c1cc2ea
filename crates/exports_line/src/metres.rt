// The metres that samples' distances stand for.
ghost use Rattle.std.specs.Prelude.{◌≡◌};
ghost use Rattle.tables.specs.Pools.{pools};
ghost use Rattle.calibrate.specs.Answers.{calibration_of};
ghost use Rattle.line_told.specs.Told.{metres_told};

use calibrate::shape_dist_affine;
use ids::{Lent, Span};
use line_told::{MetresTold, tell_metres};
use tables::{Points, Samples};

#[unsafe(no_mangle)]
pub extern "C" fn zebumorn_calibrate(
    bytes: &[u8],
    words: &[u32],
    times: &[i64],
    reals: &[f64],
    dists: &[f32],
    line: Points,
    at: Points,
    dist: Span,
    numbers: Span,
) -> MetresTold
    ensures { result ≡ metres_told (calibration_of (pools bytes.now words.now times.now reals.now dists.now) (record { line = line; at = at; dist = dist; numbers = numbers })) }
{
    let lent = Lent {
        bytes,
        words,
        times,
        reals,
        dists,
    };
    let s = Samples {
        line,
        at,
        dist,
        numbers,
    };
    tell_metres(shape_dist_affine(&lent, s))
}
