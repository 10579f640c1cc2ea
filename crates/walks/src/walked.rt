// The walk along a leg's path at a fraction of it.
ghost use Rattle.std.specs.Prelude.{◌≡◌, ◌≤◌};
ghost use Rattle.lengths.specs.Line.{line_of};
ghost use Rattle.legs.specs.Walk.{inside_leg};
ghost use Rattle.leg_paths.specs.Leg.{leg_count, leg_shape, leg_stops};
ghost use Rattle.walks.specs.Walk.{distance_walk, route_walk, chain_walk, straight_walk, leg_walk};

use by_distance::spot_over;
use chain_stretches::on_two;
use chains::chain_walk;
use courses::Course;
use ids::Lent;
use leg_paths::{leg_rows, leg_span};
use legs::{Walked, at_end, at_start, on_path};
use lengths::{Point, Polyline};
use line_parts::whole;
use paths::{End, Path};
use polylines::spot_along;
use routes::Route;
use spans::Span;
use stretches::{Spot, draw};
use trip_rows::shape_column;
use ways::Way;

// Between two distances along a shape.
fn distance_walk(line: Polyline, leg: u32, span: Span, frac: f64) -> Walked
    ensures { result ≡ distance_walk leg (line_of line.entry.lat.now line.entry.lon.now) span frac }
{
    let spot = spot_over(line, span, frac);
    let part = whole(line);
    on_path(leg, Path::ByDistance(span), spot, draw(line, part, spot))
}

// Between two vertices of a shape.
fn route_walk(line: Polyline, leg: u32, route: Route, way: Way, frac: f64) -> Walked
    ensures { result ≡ route_walk leg (line_of line.entry.lat.now line.entry.lon.now) route way frac }
{
    let spot = spot_along(line, route, way, frac);
    let part = route.part;
    on_path(
        leg,
        Path::Polyline(route, way),
        spot,
        draw(line, part, spot),
    )
}

// Along the stops between.
fn chain_walked(
    lent: &Lent,
    c: Course,
    leg: u32,
    trip: Option<usize>,
    from: End,
    to: End,
    route: Route,
    frac: f64,
) -> Walked
    requires { leg_count lent.now.words.now c trip ≤ 1000000 }
    ensures { result ≡ chain_walk leg (leg_stops lent.now.bytes.now lent.now.words.now lent.now.reals.now c trip from to) route frac }
{
    let stops = c.stops;
    let times = c.times;
    let chain = leg_rows(lent.words, c, trip, from, to);
    let on = chain_walk(lent, stops, times, chain, route, frac);
    let spot = on.spot;
    let drawn = on.drawn;
    on_path(leg, Path::Chain(route), spot, drawn)
}

// As the crow flies.
fn straight_walk(leg: u32, from: Point, to: Point, frac: f64) -> Walked
    ensures { result ≡ straight_walk leg from to frac }
{
    let spot = Spot::Straight(frac);
    on_path(leg, Path::Straight, spot, on_two(from, to, spot))
}

// Strictly between a leg's ends.
fn inside_leg(
    lent: &Lent,
    c: Course,
    leg: u32,
    trip: Option<usize>,
    from: End,
    to: End,
    path: Path,
    frac: f64,
) -> Walked
    requires { leg_count lent.now.words.now c trip ≤ 1000000 }
    ensures { result ≡ inside_leg leg (leg_shape lent.now.bytes.now lent.now.words.now lent.now.reals.now c trip) (leg_stops lent.now.bytes.now lent.now.words.now lent.now.reals.now c trip from to) from.at to.at path frac }
{
    let lats = c.points.lat;
    let lons = c.points.lon;
    let points = leg_span(lent, c, trip);
    let lat = shape_column(lent.reals, lats, points);
    let lon = shape_column(lent.reals, lons, points);
    match path {
        Path::ByDistance(span) => distance_walk(Polyline { lat, lon }, leg, span, frac),
        Path::Polyline(route, way) => route_walk(Polyline { lat, lon }, leg, route, way, frac),
        Path::Chain(route) => chain_walked(lent, c, leg, trip, from, to, route, frac),
        Path::Straight => straight_walk(leg, from.at, to.at, frac),
    }
}

// At any fraction of the leg that leads to call `leg`: 0 or less is its start, and 1 or more its end.
pub fn walk(
    lent: &Lent,
    c: Course,
    leg: u32,
    trip: Option<usize>,
    from: End,
    to: End,
    path: Path,
    frac: f64,
) -> Walked
    requires { leg_count lent.now.words.now c trip ≤ 1000000 }
    ensures { result ≡ leg_walk lent.now.bytes.now lent.now.words.now lent.now.reals.now c leg trip from to path frac }
{
    if frac <= 0.0 {
        return at_start(leg, from.at, to.at);
    }
    if frac >= 1.0 {
        return at_end(leg, from.at, to.at);
    }
    inside_leg(lent, c, leg, trip, from, to, path, frac)
}
