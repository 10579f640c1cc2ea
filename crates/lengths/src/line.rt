// Points, and the vertices of a line that is lent as two columns.
ghost use Rattle.std.specs.Prelude.{◌≡◌, ◌<◌, length, get_or};
ghost use Rattle.lengths.specs.Line.{line_of, metres_of, nowhere};

use sphere_lengths::haversine;

// A position, in degrees: a vertex's or a stop's.
#[derive(Clone, Copy)]
pub struct Point {
    pub lat: f64,
    pub lon: f64,
}

/// A line that is lent as two columns, its vertices' latitudes and longitudes.
#[derive(Clone, Copy)]
pub struct Polyline<'a> {
    pub lat: &'a [f64],
    pub lon: &'a [f64],
}

// How far b is from a, in metres.
pub fn metres(a: Point, b: Point) -> f64
    ensures { result ≡ metres_of a b }
{
    haversine(a.lat, a.lon, b.lat, b.lon)
}

// How many vertices a line has: as many as both columns have rows.
#[tactic(auto, using(crate::proofs::Rows::vertex_count))]
pub fn vertices(line: Polyline) -> usize
    ensures { result ≡ length (line_of line.entry.lat.now line.entry.lon.now) }
{
    line.lat.len().min(line.lon.len())
}

// Vertex k of a line.
#[tactic(auto, using(crate::proofs::Rows::vertex_count, crate::proofs::Rows::vertex_at))]
pub fn vertex(line: Polyline, k: usize) -> Point
    requires { k < length (line_of line.lat.now line.lon.now) }
    ensures { result ≡ get_or (line_of line.entry.lat.now line.entry.lon.now) k nowhere }
{
    Point {
        lat: line.lat[k],
        lon: line.lon[k],
    }
}
