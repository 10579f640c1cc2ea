// The C names under which tools/oracle holds lengths, the projection, calibration and places along a line beside the Rust: each answers what the
// function of crate oracle_line of the same name does. That one is a library, since oracle_tables cites it, and a static library cannot be cited.
#![tactic(auto)]

ghost use Rattle.std.specs.Prelude.{◌≡◌};
ghost use Rattle.by_distance.specs.Interpolate.{by_dist, by_feed_dist};
ghost use Rattle.lengths.specs.Line.{line_of};
ghost use Rattle.near_vertex.specs.Forward.{forward_last_index, forward_shape_index, or_vertex};
ghost use Rattle.nearest.specs.Nearest.{nearest_of};
ghost use Rattle.polylines.specs.Polyline.{polyline_of};
ghost use Rattle.projection.specs.Projection.{passed_of};
ghost use Rattle.routes.specs.Route.{along_vertices};
ghost use Rattle.running_lengths.specs.Length.{length_to};
ghost use Rattle.unit_scales.specs.Scale.{snap_unit_scale};
ghost use Rattle.oracle_line.specs.Asked.{affine_asked, bearing_or, is_at, is_by, lat_or, lon_or, position_of, scale_or, start_or};

use lengths::Polyline;

#[unsafe(no_mangle)]
pub extern "C" fn zebumorn_length_to(lat: &[f64], lon: &[f64], k: usize) -> f64
    ensures { result ≡ length_to (line_of lat.now lon.now) k }
{
    oracle_line::zebumorn_length_to(Polyline { lat, lon }, k)
}

#[unsafe(no_mangle)]
pub extern "C" fn zebumorn_forward_shape_index(
    lat: &[f64],
    lon: &[f64],
    from: usize,
    y: f64,
    x: f64,
) -> usize
    ensures { result ≡ forward_shape_index (line_of lat.entry.now lon.now) from (record { lat = y; lon = x }) }
{
    oracle_line::zebumorn_forward_shape_index(Polyline { lat, lon }, from, y, x)
}

#[unsafe(no_mangle)]
pub extern "C" fn zebumorn_forward_last_index(
    lat: &[f64],
    lon: &[f64],
    from: usize,
    y: f64,
    x: f64,
) -> usize
    ensures { result ≡ forward_last_index (line_of lat.entry.now lon.now) from (record { lat = y; lon = x }) }
{
    oracle_line::zebumorn_forward_last_index(Polyline { lat, lon }, from, y, x)
}

// The cursor goes from `at` to the answer; the stop's vertex goes to `vertex`, which stays as it was
// where the stop has none.
#[unsafe(no_mangle)]
pub extern "C" fn zebumorn_pass(
    lat: &[f64],
    lon: &[f64],
    at: usize,
    known: bool,
    y: f64,
    x: f64,
    vertex: &mut usize,
) -> usize
    ensures value { result ≡ (passed_of (line_of lat.now lon.now) (record { at = at }) (position_of known y x)).cursor.at }
    ensures vertex_after { vertex.new ≡ or_vertex (passed_of (line_of lat.now lon.now) (record { at = at }) (position_of known y x)).vertex vertex.old }
{
    oracle_line::zebumorn_pass(Polyline { lat, lon }, at, known, y, x, vertex)
}

#[unsafe(no_mangle)]
pub extern "C" fn zebumorn_snap_unit_scale(ratio: f64) -> f64
    ensures { result ≡ snap_unit_scale ratio }
{
    oracle_line::zebumorn_snap_unit_scale(ratio)
}

// The start and the scale go to `a` and `b`, which stay as they were where there is no answer.
#[unsafe(no_mangle)]
pub extern "C" fn zebumorn_shape_dist_affine(
    lat: &[f64],
    lon: &[f64],
    y0: f64,
    x0: f64,
    d0: f64,
    y1: f64,
    x1: f64,
    d1: f64,
    a: &mut f64,
    b: &mut f64,
) -> bool
    ensures value { result ≡ is_by (affine_asked lat.now lon.now y0 x0 d0 y1 x1 d1) }
    ensures a_after { a.new ≡ start_or (affine_asked lat.now lon.now y0 x0 d0 y1 x1 d1) a.old }
    ensures b_after { b.new ≡ scale_or (affine_asked lat.now lon.now y0 x0 d0 y1 x1 d1) b.old }
{
    oracle_line::zebumorn_shape_dist_affine(Polyline { lat, lon }, y0, x0, d0, y1, x1, d1, a, b)
}

#[unsafe(no_mangle)]
pub extern "C" fn zebumorn_interpolate_shape_by_dist(
    lat: &[f64],
    lon: &[f64],
    d0: f32,
    d1: f32,
    frac: f64,
    y: &mut f64,
    x: &mut f64,
    bearing: &mut f64,
) -> bool
    ensures value { result ≡ is_at (by_dist (line_of lat.now lon.now) d0 d1 frac) }
    ensures y_after { y.new ≡ lat_or (by_dist (line_of lat.now lon.now) d0 d1 frac) y.old }
    ensures x_after { x.new ≡ lon_or (by_dist (line_of lat.now lon.now) d0 d1 frac) x.old }
    ensures bearing_after { bearing.new ≡ bearing_or (by_dist (line_of lat.now lon.now) d0 d1 frac) bearing.old }
{
    oracle_line::zebumorn_interpolate_shape_by_dist(
        Polyline { lat, lon },
        d0,
        d1,
        frac,
        y,
        x,
        bearing,
    )
}

#[unsafe(no_mangle)]
pub extern "C" fn zebumorn_interpolate_shape_by_feed_dist(
    lat: &[f64],
    lon: &[f64],
    d0: f32,
    d1: f32,
    frac: f64,
    a: f64,
    b: f64,
    y: &mut f64,
    x: &mut f64,
    bearing: &mut f64,
) -> bool
    ensures value { result ≡ is_at (by_feed_dist (line_of lat.now lon.now) d0 d1 frac a b) }
    ensures y_after { y.new ≡ lat_or (by_feed_dist (line_of lat.now lon.now) d0 d1 frac a b) y.old }
    ensures x_after { x.new ≡ lon_or (by_feed_dist (line_of lat.now lon.now) d0 d1 frac a b) x.old }
    ensures bearing_after { bearing.new ≡ bearing_or (by_feed_dist (line_of lat.now lon.now) d0 d1 frac a b) bearing.old }
{
    oracle_line::zebumorn_interpolate_shape_by_feed_dist(
        Polyline { lat, lon },
        d0,
        d1,
        frac,
        a,
        b,
        y,
        x,
        bearing,
    )
}

#[unsafe(no_mangle)]
pub extern "C" fn zebumorn_interpolate_along_vertices(
    lat: &[f64],
    lon: &[f64],
    frac: f64,
    y: &mut f64,
    x: &mut f64,
    bearing: &mut f64,
) -> bool
    ensures value { result ≡ is_at (along_vertices (line_of lat.now lon.now) frac) }
    ensures y_after { y.new ≡ lat_or (along_vertices (line_of lat.now lon.now) frac) y.old }
    ensures x_after { x.new ≡ lon_or (along_vertices (line_of lat.now lon.now) frac) x.old }
    ensures bearing_after { bearing.new ≡ bearing_or (along_vertices (line_of lat.now lon.now) frac) bearing.old }
{
    oracle_line::zebumorn_interpolate_along_vertices(Polyline { lat, lon }, frac, y, x, bearing)
}

#[unsafe(no_mangle)]
pub extern "C" fn zebumorn_interpolate_polyline(
    lat: &[f64],
    lon: &[f64],
    y0: f64,
    x0: f64,
    y1: f64,
    x1: f64,
    frac: f64,
    y: &mut f64,
    x: &mut f64,
    bearing: &mut f64,
) -> bool
    ensures value { result ≡ is_at (polyline_of (line_of lat.entry.now lon.now) (record { lat = y0; lon = x0 }) (record { lat = y1; lon = x1 }) frac) }
    ensures y_after { y.new ≡ lat_or (polyline_of (line_of lat.entry.now lon.now) (record { lat = y0; lon = x0 }) (record { lat = y1; lon = x1 }) frac) y.old }
    ensures x_after { x.new ≡ lon_or (polyline_of (line_of lat.entry.now lon.now) (record { lat = y0; lon = x0 }) (record { lat = y1; lon = x1 }) frac) x.old }
    ensures bearing_after { bearing.new ≡ bearing_or (polyline_of (line_of lat.entry.now lon.now) (record { lat = y0; lon = x0 }) (record { lat = y1; lon = x1 }) frac) bearing.old }
{
    oracle_line::zebumorn_interpolate_polyline(
        Polyline { lat, lon },
        y0,
        x0,
        y1,
        x1,
        frac,
        y,
        x,
        bearing,
    )
}

#[unsafe(no_mangle)]
pub extern "C" fn zebumorn_nearest_idx(lat: &[f64], lon: &[f64], y: f64, x: f64) -> usize
    ensures { result ≡ nearest_of (line_of lat.entry.now lon.now) (record { lat = y; lon = x }) }
{
    oracle_line::zebumorn_nearest_idx(Polyline { lat, lon }, y, x)
}
