// The sample that a row of the stop times is.
ghost use Rattle.std.specs.Prelude.{◌≡◌};
ghost use Rattle.trip_samples.specs.Trip.{sample_at};

use calibration::Sample;
use courses::{Course, dist};
use ids::Lent;
use trip_rows::stop_point;

// The sample that row k is.
#[tactic(auto, unfolding(crate::specs::Trip::sample_at))]
pub fn sample(lent: &Lent, c: Course, k: usize) -> Sample
    ensures { result ≡ sample_at lent.now.words.now lent.now.reals.now lent.now.dists.now c k }
{
    Sample {
        at: stop_point(
            lent.reals,
            c.stops,
            ids::cell(lent.words, c.times.stop, k) as usize,
        ),
        dist: dist(lent.dists, c.times.dist, k),
    }
}
