// The metres along its line that a trip's distances stand for.
ghost use Rattle.std.specs.Prelude.{◌≡◌};
ghost use Rattle.trip_samples.specs.Trip.{rows_affine, trip_affine};

use crate::row::sample;
use calibration::shape_dist_affine;
use courses::{Course, flagged, shape_lat, shape_lon};
use ids::Lent;
use lengths::Polyline;
use sample_rows::{first_sample, last_sample};
use unit_scales::Affine;

// From two rows, if both are found, along the line of a shape.
fn rows_affine(
    lent: &Lent,
    c: Course,
    shape: usize,
    i: Option<usize>,
    j: Option<usize>,
) -> Option<Affine>
    ensures { result ≡ rows_affine lent.now.words.now lent.now.reals.now lent.now.dists.now c shape i j }
{
    let Some(i) = i else {
        return None;
    };
    let Some(j) = j else {
        return None;
    };
    shape_dist_affine(
        Polyline {
            lat: shape_lat(lent, c, shape),
            lon: shape_lon(lent, c, shape),
        },
        sample(lent, c, i),
        sample(lent, c, j),
    )
}

// From the trip's first and last sample; none where it has no shape.
#[tactic(auto, unfolding(crate::specs::Trip::trip_affine))]
pub fn trip_shape_dist_affine(lent: &Lent, c: Course, trip: usize) -> Option<Affine>
    ensures { result ≡ trip_affine lent.now.bytes.now lent.now.words.now lent.now.reals.now lent.now.dists.now c trip }
{
    if !flagged(lent.bytes, c.trips.shaped, trip) {
        return None;
    }
    let shape = ids::cell(lent.words, c.trips.shape, trip) as usize;
    let from = ids::cell(lent.words, c.trips.first, trip);
    let n = ids::cell(lent.words, c.trips.count, trip);
    let i = first_sample(lent, c, from, n);
    let j = last_sample(lent, c, from, n);
    rows_affine(lent, c, shape, i, j)
}
