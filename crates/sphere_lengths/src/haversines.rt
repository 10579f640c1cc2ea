// Lengths of ways between positions that are known to be on the globe.
ghost use Rattle.std.specs.Prelude.{◌≡◌};
ghost use Rattle.maths.specs.Trig.{cos_of, radians_of};
ghost use Rattle.sphere_lengths.specs.Length.{haversin_of, way_of, haversine_of};

use arcs::asin;
use maths::{cos, radians, sin};
use roots::root;

// The globe, by its radius.
#[derive(Clone, Copy)]
pub struct Globe {}

impl Globe {
    // In metres.
    pub const RADIUS: f64 = 6371000.0;
}

// What the length is the way of, where the cosine of the first latitude is known.
pub fn haversin(lat1: f64, lon1: f64, c1: f64, lat2: f64, lon2: f64) -> f64
    requires { c1 ≡ cos_of (radians_of lat1) }
    ensures { result ≡ haversin_of lat1 lon1 lat2 lon2 }
{
    let s1 = sin(radians(lat2 - lat1) / 2.0);
    let s2 = sin(radians(lon2 - lon1) / 2.0);
    let c2 = cos(radians(lat2));
    s1 * s1 + c1 * c2 * (s2 * s2)
}

// The way of that, in metres.
pub fn way(a: f64) -> f64
    ensures { result ≡ way_of a }
{
    2.0 * Globe::RADIUS * asin(root(a))
}

// The length of the way from one position to another, in metres.
#[tactic(auto, unfolding(crate::specs::Length::haversine_of))]
pub fn haversine(lat1: f64, lon1: f64, lat2: f64, lon2: f64) -> f64
    ensures { result ≡ haversine_of lat1 lon1 lat2 lon2 }
{
    way(haversin(lat1, lon1, cos(radians(lat1)), lat2, lon2))
}
