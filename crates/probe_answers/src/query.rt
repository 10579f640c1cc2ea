// Each query by its kind.
use crate::numbers::{print_atan, print_double, print_measured, print_single};
use case_queries::Query;
use case_tables::Pools;
use std::io;

// A query of what a case holds, but for the place, which the program tells.
pub fn answer(
    out: &impl Print,
    err: &impl Print,
    s: &[u8],
    pools: &mut Pools,
    q: Query,
) -> io::Result<()> {
    match q {
        Query::Sin(x) => print_double(out, maths::sin(x)),
        Query::Cos(x) => print_double(out, maths::cos(x)),
        Query::Atan(x) => print_atan(out, x),
        Query::Asin(x) => print_double(out, arcs::asin(x)),
        Query::Root(x) => print_double(out, roots::root(x)),
        Query::Narrow(x) => print_single(out, float_bits::narrow(x)),
        Query::Snap(x) => probe_shapes::snap(out, err, pools, x),
        Query::Atan2(y, x) => print_double(out, arcs::atan2(y, x)),
        Query::Haversine(lat, lon, to_lat, to_lon) => {
            print_measured(out, err, measure::haversine_m(lat, lon, to_lat, to_lon))
        }
        Query::Bearing(lat, lon, to_lat, to_lon) => {
            print_measured(out, err, measure::bearing_deg(lat, lon, to_lat, to_lon))
        }
        Query::Date(n) => probe_schedule::date(out, err, n),
        Query::Runs(date) => probe_schedule::runs(out, err, s, pools, date),
        Query::Match => probe_schedule::match_journey(out, err, pools),
        Query::Project(trip) => probe_shapes::project(out, err, pools, trip),
        Query::Calibrate(trip) => probe_shapes::calibrate_trip(out, err, pools, trip),
        Query::Backfill(trip) => probe_shapes::backfill(out, err, pools, trip),
        Query::Along(shape, from, to, fraction) => {
            probe_shapes::place_along(out, err, pools, shape, from, to, fraction)
        }
        Query::Leg(from, to) => probe_shapes::draw_leg(out, err, s, pools, from, to),
        Query::Place => Ok(()),
    }
}
