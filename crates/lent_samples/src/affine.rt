// The metres along a line that the distances of samples stand for.
ghost use Rattle.std.specs.Prelude.{◌≡◌};
ghost use Rattle.lent_samples.specs.Samples.{lent_affine};

use calibration::samples_affine;
use ids::Lent;
use lengths::Polyline;
use tables::{Samples, cut};
use unit_scales::Affine;

// Of samples that are not refused.
#[tactic(auto, unfolding(crate::specs::Samples::lent_affine))]
pub fn lent_affine(lent: &Lent, s: Samples) -> Option<Affine>
    ensures { result ≡ lent_affine lent.now.reals.now lent.now.dists.now s }
{
    let line = s.line;
    let at = s.at;
    let dist = s.dist;
    samples_affine(
        Polyline {
            lat: cut(lent.reals, line.lat),
            lon: cut(lent.reals, line.lon),
        },
        cut(lent.reals, at.lat),
        cut(lent.reals, at.lon),
        cut(lent.dists, dist),
    )
}
