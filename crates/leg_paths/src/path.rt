// Which path a leg is drawn along: on a shape of two points or more by distance, else between the nearest vertices,
// else along the stops between.
ghost use Rattle.std.specs.Prelude.{◌≡◌, ◌≤◌};
ghost use Rattle.ids.specs.Pool.{cell_of};
ghost use Rattle.lengths.specs.Line.{line_of};
ghost use Rattle.paths.specs.Path.{over_chain, over_route};
ghost use Rattle.stop_routes.specs.Routed.{route_between};
ghost use Rattle.leg_paths.specs.Leg.{leg_count, leg_stops, trip_spanned, trip_path, leg_path};

use crate::leg::{leg_rows, leg_span};
use chains::chain_route;
use courses::Course;
use ids::Lent;
use lengths::{Polyline, vertices};
use paths::{End, Path, feed_span};
use seq_distances::seq_dist;
use spans::Span;
use stop_routes::route_between;
use trip_rows::shape_column;
use trip_samples::trip_shape_dist_affine;

// Along the stops between.
fn chain_path(lent: &Lent, c: Course, trip: Option<usize>, from: End, to: End) -> Path
    requires { leg_count lent.now.words.now c trip ≤ 1000000 }
    ensures { result ≡ over_chain (leg_stops lent.now.bytes.now lent.now.words.now lent.now.reals.now c trip from to) }
{
    let stops = c.stops;
    let times = c.times;
    let chain = leg_rows(lent.words, c, trip, from, to);
    Path::Chain(chain_route(lent, stops, times, chain))
}

// Between the vertices of a shape that are nearest to the ends, or else along the stops between.
fn route_path(
    lent: &Lent,
    c: Course,
    trip: Option<usize>,
    from: End,
    to: End,
    line: Polyline,
) -> Path
    requires { leg_count lent.now.words.now c trip ≤ 1000000 }
    ensures { result ≡ over_route (route_between (line_of line.entry.lat.now line.entry.lon.now) from.at to.at) (over_chain (leg_stops lent.now.bytes.now lent.now.words.now lent.now.reals.now c trip from to)) }
{
    match route_between(line, from.at, to.at) {
        Some(found) => Path::Polyline(found.route, found.way),
        None => chain_path(lent, c, trip, from, to),
    }
}

// The span between the distances that the timetable has for the ends.
fn trip_spanned(lent: &Lent, c: Course, trip: usize, from: End, to: End) -> Option<Span>
    ensures { result ≡ trip_spanned lent.now.bytes.now lent.now.words.now lent.now.reals.now lent.now.dists.now c trip from to }
{
    feed_span(
        trip_shape_dist_affine(lent, c, trip),
        seq_dist(lent, c, trip, from.sequence),
        seq_dist(lent, c, trip, to.sequence),
    )
}

// The path of a leg of a trip.
fn trip_path(lent: &Lent, c: Course, trip: usize, from: End, to: End) -> Path
    requires { cell_of lent.now.words.now c.trips.count trip ≤ 1000000 }
    ensures { result ≡ trip_path lent.now.bytes.now lent.now.words.now lent.now.reals.now lent.now.dists.now c trip from to }
{
    let lats = c.points.lat;
    let lons = c.points.lon;
    let found = Some(trip);
    let span = leg_span(lent, c, found);
    let lat = shape_column(lent.reals, lats, span);
    let lon = shape_column(lent.reals, lons, span);
    if vertices(Polyline { lat, lon }) < 2 {
        return chain_path(lent, c, found, from, to);
    }
    match trip_spanned(lent, c, trip, from, to) {
        Some(span) => Path::ByDistance(span),
        None => route_path(lent, c, found, from, to, Polyline { lat, lon }),
    }
}

// The path of a leg of a trip that is found; one of no trip is straight.
pub fn path_of(lent: &Lent, c: Course, trip: Option<usize>, from: End, to: End) -> Path
    requires { leg_count lent.now.words.now c trip ≤ 1000000 }
    ensures { result ≡ leg_path lent.now.bytes.now lent.now.words.now lent.now.reals.now lent.now.dists.now c trip from to }
{
    let Some(trip) = trip else {
        return Path::Straight;
    };
    trip_path(lent, c, trip, from, to)
}
