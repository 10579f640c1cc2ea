// The points of one leg and of all. A point is drawn unless it is the last one drawn.
ghost use Rattle.std.specs.Prelude.{◌≡◌, ◌++◌, ◌+◌, ◌<◌, ◌≤◌, length, drop};
ghost use Rattle.point_columns.specs.Columns.{SameColumns, drawing};
ghost use Rattle.point_columns.specs.Drawn.{lats_of, lons_of};
ghost use Rattle.point_columns.specs.Sheet.{draw_one, draw_all};
ghost use Rattle.trip_vertices.specs.Vertices.{positions_from};
ghost use Rattle.repeated_points.specs.Repeats.{differ};
ghost use Rattle.journey_points.specs.Journey.{point_at, point_position, end_at, end_positions, leg_positions, journey_points};

use ids::{Lent, Span};
use journey_rules::JourneyLegs;
use lengths::Point;
use point_columns::{Sheet, later};
use repeated_points::next;
use tables::Points;
use trip_rows::real;

// The last point drawn, and the row of the next.
#[derive(Clone, Copy)]
pub(crate) struct Drawn {
    pub last: Option<Point>,
    pub at: usize,
}

// Draws a position.
fn draw_one(s: Drawn, stop: Option<Point>, sheet: &mut Sheet) -> Drawn
    requires { s.at < 18446744073709551615 }
    ensures sheet_after { drawing sheet.new result.last result.at ≡ draw_one differ (drawing sheet.old s.last s.at) stop }
    ensures same { SameColumns sheet.old sheet.new }
{
    let last = s.last;
    let drawn = next(last, stop);
    let at = sheet.put(s.at, drawn);
    Drawn {
        last: later(last, drawn),
        at,
    }
}

// A point of a table of points.
fn point_at(reals: &[f64], points: Points, k: usize) -> Point
    ensures { result ≡ point_at reals.now points k }
{
    let lat = points.lat;
    let lon = points.lon;
    Point {
        lat: real(reals, lat, k),
        lon: real(reals, lon, k),
    }
}

// Where a walk starts or ends, if that is known.
fn end_at(lent: &Lent, ends: Points, known: Span, leg: usize) -> Option<Point>
    ensures { result ≡ end_at lent.now.bytes.now lent.now.reals.now ends known leg }
{
    if columns::bit(lent.bytes, known, leg) == 0 {
        None
    } else {
        Some(point_at(lent.reals, ends, leg))
    }
}

// Draws the walk's start and its end.
fn draw_ends(lent: &Lent, j: JourneyLegs, leg: usize, s: Drawn, sheet: &mut Sheet) -> Drawn
    requires { s.at + 2 < 18446744073709551615 }
    ensures sheet_after { drawing sheet.new result.last result.at ≡ draw_all differ (drawing sheet.old s.last s.at) (end_positions lent.now.bytes.now lent.now.reals.now j leg) }
    ensures same { SameColumns sheet.old sheet.new }
{
    let start = j.start;
    let started = j.started;
    let end = j.end;
    let ended = j.ended;
    let s1 = draw_one(s, end_at(lent, start, started, leg), sheet);
    draw_one(s1, end_at(lent, end, ended, leg), sheet)
}

// Draws n points from `first` on.
fn draw_points(
    reals: &[f64],
    points: Points,
    first: u32,
    n: u32,
    s: Drawn,
    sheet: &mut Sheet,
) -> Drawn
    requires { s.at + n < 18446744073709551615 }
    ensures sheet_after { drawing sheet.new result.last result.at ≡ draw_all differ (drawing sheet.old s.last s.at) (positions_from (point_position reals.now points) first n) }
    ensures same { SameColumns sheet.old sheet.new }
{
    let from = first as usize;
    let mut drawn = s;
    for k in 0..n as usize {
        let point = point_at(reals, points, from + k);
        drawn = draw_one(drawn, Some(point), sheet);
    }
    drawn
}

// Draws a leg: a walk of fewer than two points from its start to its end, any other leg by its points.
// Two arms draw points: with the tests joined by `&&`, what is drawn of the joined arm was not proved.
fn draw_leg(lent: &Lent, j: JourneyLegs, leg: usize, s: Drawn, sheet: &mut Sheet) -> Drawn
    requires { s.at + 4294967295 < 18446744073709551615 }
    ensures sheet_after { drawing sheet.new result.last result.at ≡ draw_all differ (drawing sheet.old s.last s.at) (leg_positions lent.now.bytes.now lent.now.words.now lent.now.reals.now j leg) }
    ensures same { SameColumns sheet.old sheet.new }
    ensures at_bound { result.at ≤ s.at + 4294967295 }
{
    let walk = j.walk;
    let firsts = j.first;
    let counts = j.count;
    let points = j.points;
    let first = ids::cell(lent.words, firsts, leg);
    let n = ids::cell(lent.words, counts, leg);
    if columns::bit(lent.bytes, walk, leg) == 0 {
        draw_points(lent.reals, points, first, n, s, sheet)
    } else if n < 2 {
        draw_ends(lent, j, leg, s, sheet)
    } else {
        draw_points(lent.reals, points, first, n, s, sheet)
    }
}

// Draws the legs one after another, as far as the columns have room, and answers how many points they are.
pub fn draw_legs(lent: &Lent, j: JourneyLegs, sheet: &mut Sheet) -> usize
    ensures value { result ≡ length (journey_points lent.now.bytes.now lent.now.words.now lent.now.reals.now j) }
    ensures lat_after { result ≤ length sheet.old.lat.now → sheet.new.lat.now ≡ lats_of (journey_points lent.now.bytes.now lent.now.words.now lent.now.reals.now j) ++ drop result sheet.old.lat.now }
    ensures lon_after { result ≤ length sheet.old.lon.now → sheet.new.lon.now ≡ lons_of (journey_points lent.now.bytes.now lent.now.words.now lent.now.reals.now j) ++ drop result sheet.old.lon.now }
    ensures lat_kept { length sheet.new.lat.now ≡ length sheet.old.lat.now }
    ensures lon_kept { length sheet.new.lon.now ≡ length sheet.old.lon.now }
    ensures same { SameColumns sheet.old sheet.new }
{
    let mut drawn = Drawn { last: None, at: 0 };
    let walk = j.walk;
    let legs = walk.n as usize;
    for k in 0..legs {
        drawn = draw_leg(lent, j, k, drawn, sheet);
    }
    drawn.at
}
