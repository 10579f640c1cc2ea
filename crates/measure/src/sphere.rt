// The bearing between positions that are known to be on the globe.
ghost use Rattle.std.specs.Prelude.{◌≡◌};
ghost use Rattle.measure.specs.Measure.{bearing_of};

use arcs::atan2;
use maths::{cos, degrees, radians, sin};

// The bearing at the first position of the way to the second, in degrees from north, clockwise.
pub fn bearing(lat1: f64, lon1: f64, lat2: f64, lon2: f64) -> f64
    ensures { result ≡ bearing_of lat1 lon1 lat2 lon2 }
{
    let phi1 = radians(lat1);
    let phi2 = radians(lat2);
    let dlon = radians(lon2 - lon1);
    let cos2 = cos(phi2);
    let y = sin(dlon) * cos2;
    let x = cos(phi1) * sin(phi2) - sin(phi1) * cos2 * cos(dlon);
    let theta = degrees(atan2(y, x));
    // The remainder by 360: the sum is NaN, or above 0 and below 720.
    let turned = theta + 360.0;
    if turned < 360.0 {
        turned
    } else {
        turned - 360.0
    }
}
