// The C names of the measure: the length and the bearing of the way between two positions. Each answers what the function that it calls does.
#![tactic(auto)]

ghost use Rattle.std.specs.Prelude.{◌≡◌};
ghost use Rattle.refusals.specs.Answer.{number_of, value_or};
ghost use Rattle.measure.specs.Measure.{measured, bearing_of};
ghost use Rattle.sphere_lengths.specs.Length.{haversine_of};

use refusals::told;

#[unsafe(no_mangle)]
pub extern "C" fn zebumorn_haversine_m(
    lat1: f64,
    lon1: f64,
    lat2: f64,
    lon2: f64,
    out: &mut f64,
) -> u32
    ensures value { result ≡ number_of (measured haversine_of lat1 lon1 lat2 lon2) }
    ensures out_after { out.new ≡ value_or out.old (measured haversine_of lat1 lon1 lat2 lon2) }
{
    told(measure::haversine_m(lat1, lon1, lat2, lon2), out)
}

#[unsafe(no_mangle)]
pub extern "C" fn zebumorn_bearing_deg(
    lat1: f64,
    lon1: f64,
    lat2: f64,
    lon2: f64,
    out: &mut f64,
) -> u32
    ensures value { result ≡ number_of (measured bearing_of lat1 lon1 lat2 lon2) }
    ensures out_after { out.new ≡ value_or out.old (measured bearing_of lat1 lon1 lat2 lon2) }
{
    told(measure::bearing_deg(lat1, lon1, lat2, lon2), out)
}
