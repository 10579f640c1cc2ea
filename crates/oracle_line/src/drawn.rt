// Places along a line. An answer says whether there is a position, which goes to `y`, `x` and
// `bearing`; they stay as they were where there is none.
ghost use Rattle.std.specs.Prelude.{◌≡◌};
ghost use Rattle.lengths.specs.Line.{line_of};
ghost use Rattle.by_distance.specs.Interpolate.{by_dist, by_feed_dist};
ghost use Rattle.nearest.specs.Nearest.{nearest_of};
ghost use Rattle.routes.specs.Route.{along_vertices};
ghost use Rattle.polylines.specs.Polyline.{polyline_of};
ghost use Rattle.oracle_line.specs.Asked.{is_at, lat_or, lon_or, bearing_or};

use lengths::{Point, Polyline};
use stretches::Drawn;

// Writes a position, and says whether there is one.
fn write_position(drawn: Option<Drawn>, y: &mut f64, x: &mut f64, bearing: &mut f64) -> bool
    ensures value { result ≡ is_at drawn }
    ensures y_after { y.new ≡ lat_or drawn y.old }
    ensures x_after { x.new ≡ lon_or drawn x.old }
    ensures bearing_after { bearing.new ≡ bearing_or drawn bearing.old }
{
    match drawn {
        Some(d) => {
            *y = d.lat;
            *x = d.lon;
            *bearing = d.bearing;
            true
        }
        None => false,
    }
}

pub fn zebumorn_interpolate_shape_by_dist(
    line: Polyline,
    d0: f32,
    d1: f32,
    frac: f64,
    y: &mut f64,
    x: &mut f64,
    bearing: &mut f64,
) -> bool
    ensures value { result ≡ is_at (by_dist (line_of line.entry.lat.now line.entry.lon.now) d0 d1 frac) }
    ensures y_after { y.new ≡ lat_or (by_dist (line_of line.entry.lat.now line.entry.lon.now) d0 d1 frac) y.old }
    ensures x_after { x.new ≡ lon_or (by_dist (line_of line.entry.lat.now line.entry.lon.now) d0 d1 frac) x.old }
    ensures bearing_after { bearing.new ≡ bearing_or (by_dist (line_of line.entry.lat.now line.entry.lon.now) d0 d1 frac) bearing.old }
{
    let drawn = by_distance::interpolate_shape_by_dist(line, d0, d1, frac);
    write_position(drawn, y, x, bearing)
}

pub fn zebumorn_interpolate_shape_by_feed_dist(
    line: Polyline,
    d0: f32,
    d1: f32,
    frac: f64,
    a: f64,
    b: f64,
    y: &mut f64,
    x: &mut f64,
    bearing: &mut f64,
) -> bool
    ensures value { result ≡ is_at (by_feed_dist (line_of line.entry.lat.now line.entry.lon.now) d0 d1 frac a b) }
    ensures y_after { y.new ≡ lat_or (by_feed_dist (line_of line.entry.lat.now line.entry.lon.now) d0 d1 frac a b) y.old }
    ensures x_after { x.new ≡ lon_or (by_feed_dist (line_of line.entry.lat.now line.entry.lon.now) d0 d1 frac a b) x.old }
    ensures bearing_after { bearing.new ≡ bearing_or (by_feed_dist (line_of line.entry.lat.now line.entry.lon.now) d0 d1 frac a b) bearing.old }
{
    let drawn = by_distance::interpolate_shape_by_feed_dist(line, d0, d1, frac, a, b);
    write_position(drawn, y, x, bearing)
}

pub fn zebumorn_interpolate_along_vertices(
    line: Polyline,
    frac: f64,
    y: &mut f64,
    x: &mut f64,
    bearing: &mut f64,
) -> bool
    ensures value { result ≡ is_at (along_vertices (line_of line.entry.lat.now line.entry.lon.now) frac) }
    ensures y_after { y.new ≡ lat_or (along_vertices (line_of line.entry.lat.now line.entry.lon.now) frac) y.old }
    ensures x_after { x.new ≡ lon_or (along_vertices (line_of line.entry.lat.now line.entry.lon.now) frac) x.old }
    ensures bearing_after { bearing.new ≡ bearing_or (along_vertices (line_of line.entry.lat.now line.entry.lon.now) frac) bearing.old }
{
    let drawn = routes::interpolate_along_vertices(line, frac);
    write_position(drawn, y, x, bearing)
}

pub fn zebumorn_interpolate_polyline(
    line: Polyline,
    y0: f64,
    x0: f64,
    y1: f64,
    x1: f64,
    frac: f64,
    y: &mut f64,
    x: &mut f64,
    bearing: &mut f64,
) -> bool
    ensures value { result ≡ is_at (polyline_of (line_of line.entry.lat.now line.entry.lon.now) (record { lat = y0; lon = x0 }) (record { lat = y1; lon = x1 }) frac) }
    ensures y_after { y.new ≡ lat_or (polyline_of (line_of line.entry.lat.now line.entry.lon.now) (record { lat = y0; lon = x0 }) (record { lat = y1; lon = x1 }) frac) y.old }
    ensures x_after { x.new ≡ lon_or (polyline_of (line_of line.entry.lat.now line.entry.lon.now) (record { lat = y0; lon = x0 }) (record { lat = y1; lon = x1 }) frac) x.old }
    ensures bearing_after { bearing.new ≡ bearing_or (polyline_of (line_of line.entry.lat.now line.entry.lon.now) (record { lat = y0; lon = x0 }) (record { lat = y1; lon = x1 }) frac) bearing.old }
{
    let prev = Point { lat: y0, lon: x0 };
    let next = Point { lat: y1, lon: x1 };
    let drawn = polylines::interpolate_polyline(line, prev, next, frac);
    write_position(drawn, y, x, bearing)
}

pub fn zebumorn_nearest_idx(line: Polyline, y: f64, x: f64) -> usize
    ensures { result ≡ nearest_of (line_of line.entry.lat.now line.entry.lon.now) (record { lat = y; lon = x }) }
{
    let stop = Point { lat: y, lon: x };
    nearest::nearest_idx(line, stop)
}
