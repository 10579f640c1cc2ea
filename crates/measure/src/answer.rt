// The measures as operations on any positions.
ghost use Rattle.std.specs.Prelude.{◌≡◌, cond, Ok, Err};
ghost use Rattle.refusals.specs.Answer.{answer_of};
ghost use Rattle.refusals.specs.declared.refusal.Refusal.TheVariants.{Position};
ghost use Rattle.globe.specs.Globe.{both_on_globe};
ghost use Rattle.measure.specs.Measure.{measured, bearing_of};
ghost use Rattle.sphere_lengths.specs.Length.{haversine_of};

use crate::sphere::bearing;
use globe::both_on_globe;
use refusals::Refusal;
use sphere_lengths::haversine;

// Both positions are on the globe.
fn check_positions(lat1: f64, lon1: f64, lat2: f64, lon2: f64) -> Result<(), Refusal>
    ensures { result ≡ cond (both_on_globe lat1 lon1 lat2 lon2) (Ok tt) (Err Position) }
{
    if both_on_globe(lat1, lon1, lat2, lon2) {
        return Ok(());
    }
    Err(Refusal::Position)
}

/// The length of the way between two positions, in metres.
#[tactic(auto, unfolding(crate::specs::Measure::measured))]
pub fn haversine_m(lat1: f64, lon1: f64, lat2: f64, lon2: f64) -> Result<f64, Refusal>
    ensures { answer_of result ≡ measured haversine_of lat1 lon1 lat2 lon2 }
{
    check_positions(lat1, lon1, lat2, lon2)?;
    Ok(haversine(lat1, lon1, lat2, lon2))
}

/// The bearing at the first position of the way to the second, in degrees from north, clockwise.
#[tactic(auto, unfolding(crate::specs::Measure::measured))]
pub fn bearing_deg(lat1: f64, lon1: f64, lat2: f64, lon2: f64) -> Result<f64, Refusal>
    ensures { answer_of result ≡ measured bearing_of lat1 lon1 lat2 lon2 }
{
    check_positions(lat1, lon1, lat2, lon2)?;
    Ok(bearing(lat1, lon1, lat2, lon2))
}
