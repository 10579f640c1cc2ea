// The position and the bearing of a spot.
ghost use Rattle.std.specs.Prelude.{◌≡◌};
ghost use Rattle.lengths.specs.Line.{line_of};
ghost use Rattle.stretches.specs.Drawing.{bearing_of_way, between_of, first_of, last_of, draw_of};

use crate::spot::Spot;
use lengths::{Point, Polyline};
use line_parts::{Part, next_point, point};

// In degrees.
#[derive(Clone, Copy)]
pub struct Drawn {
    pub lat: f64,
    pub lon: f64,
    pub bearing: f64,
}

// The bearing from p to q.
fn bearing_of_way(p: Point, q: Point) -> f64
    ensures { result ≡ bearing_of_way p q }
{
    measure::bearing(p.lat, p.lon, q.lat, q.lon)
}

// At the fraction t of the way from p to q.
#[tactic(auto, unfolding(crate::specs::Drawing::between_of))]
fn between(p: Point, q: Point, t: f64) -> Drawn
    ensures { result ≡ between_of p q t }
{
    Drawn {
        lat: p.lat + (q.lat - p.lat) * t,
        lon: p.lon + (q.lon - p.lon) * t,
        bearing: bearing_of_way(p, q),
    }
}

// At the first vertex of a part, towards the next; bearing 0 where it has no other.
#[tactic(auto, unfolding(crate::specs::Drawing::first_of))]
fn first_of(line: Polyline, part: Part) -> Drawn
    ensures { result ≡ first_of (line_of line.entry.lat.now line.entry.lon.now) part }
{
    let p = point(line, part.first);
    let bearing = if part.first < part.last {
        bearing_of_way(p, next_point(line, part.first))
    } else {
        0.0
    };
    Drawn {
        lat: p.lat,
        lon: p.lon,
        bearing,
    }
}

// At its last, from the one before.
#[tactic(auto, unfolding(crate::specs::Drawing::last_of))]
fn last_of(line: Polyline, part: Part) -> Drawn
    ensures { result ≡ last_of (line_of line.entry.lat.now line.entry.lon.now) part }
{
    let p = point(line, part.last);
    Drawn {
        lat: p.lat,
        lon: p.lon,
        bearing: bearing_of_way(point(line, part.last.saturating_sub(1)), p),
    }
}

// A stretch's bearing is in the order of the vertices, whichever way it is sailed.
pub fn draw(line: Polyline, part: Part, spot: Spot) -> Drawn
    ensures { result ≡ draw_of (line_of line.entry.lat.now line.entry.lon.now) part spot }
{
    match spot {
        Spot::First => first_of(line, part),
        Spot::Stretch(k, t) => between(point(line, k), next_point(line, k), t),
        Spot::Straight(t) => between(point(line, part.first), point(line, part.last), t),
        Spot::NoStretch => last_of(line, part),
    }
}
