// Which positions are on the globe.
ghost use Rattle.std.specs.Prelude.{◌≡◌};
ghost use Rattle.globe.specs.Globe.{both_on_globe, on_globe};

// Whether a position in degrees is on the globe: a NaN is not.
#[tactic(auto, unfolding(crate::specs::Globe::on_globe, crate::specs::Globe::within))]
pub fn on_globe(lat: f64, lon: f64) -> bool
    ensures { result ≡ on_globe lat lon }
{
    (-90.0..=90.0).contains(&lat) && (-180.0..=180.0).contains(&lon)
}

// Whether both of two are.
#[tactic(auto, unfolding(crate::specs::Globe::both_on_globe))]
pub fn both_on_globe(lat1: f64, lon1: f64, lat2: f64, lon2: f64) -> bool
    ensures { result ≡ both_on_globe lat1 lon1 lat2 lon2 }
{
    on_globe(lat1, lon1) && on_globe(lat2, lon2)
}
