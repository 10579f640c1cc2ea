// What tools/oracle holds beside the Rust of lengths, the projection, calibration and places along a line: functions of numbers alone, which crate
// oracle_line_c gives their C names. Each says no more than the function that it calls.
#![tactic(auto)]

mod drawn; // places along a line

ghost use Rattle.std.specs.Prelude.{◌≡◌};
ghost use Rattle.running_lengths.specs.Length.{length_to};
ghost use Rattle.lengths.specs.Line.{line_of};
ghost use Rattle.near_vertex.specs.Forward.{forward_last_index, forward_shape_index, or_vertex};
ghost use Rattle.projection.specs.Projection.{passed_of};
ghost use Rattle.unit_scales.specs.Scale.{snap_unit_scale};
ghost use Rattle.oracle_line.specs.Asked.{affine_asked, is_by, position_of, scale_or, start_or};

use calibration::Sample;
pub use drawn::{
    zebumorn_interpolate_along_vertices, zebumorn_interpolate_polyline,
    zebumorn_interpolate_shape_by_dist, zebumorn_interpolate_shape_by_feed_dist,
    zebumorn_nearest_idx,
};
use lengths::{Point, Polyline};
use projection::Cursor;
use unit_scales::Affine;

pub fn zebumorn_length_to(line: Polyline, k: usize) -> f64
    ensures { result ≡ length_to (line_of line.entry.lat.now line.entry.lon.now) k }
{
    running_lengths::length_to(line, k)
}

pub fn zebumorn_forward_shape_index(line: Polyline, from: usize, y: f64, x: f64) -> usize
    ensures { result ≡ forward_shape_index (line_of line.entry.lat.now line.entry.lon.now) from (record { lat = y; lon = x }) }
{
    let stop = Point { lat: y, lon: x };
    near_vertex::forward_shape_index(line, from, stop)
}

pub fn zebumorn_forward_last_index(line: Polyline, from: usize, y: f64, x: f64) -> usize
    ensures { result ≡ forward_last_index (line_of line.entry.lat.now line.entry.lon.now) from (record { lat = y; lon = x }) }
{
    let stop = Point { lat: y, lon: x };
    near_vertex::forward_last_index(line, from, stop)
}

// The stop's position, if it is known.
fn position(known: bool, lat: f64, lon: f64) -> Option<Point>
    ensures { result ≡ position_of known lat lon }
{
    if known {
        Some(Point { lat, lon })
    } else {
        None
    }
}

// The vertex, or `other` where there is none.
fn or_other(found: Option<usize>, other: usize) -> usize
    ensures { result ≡ or_vertex found other }
{
    match found {
        Some(k) => k,
        None => other,
    }
}

// The cursor goes from `at` to the answer; the stop's vertex goes to `vertex`, which stays as it was
// where the stop has none.
pub fn zebumorn_pass(
    line: Polyline,
    at: usize,
    known: bool,
    y: f64,
    x: f64,
    vertex: &mut usize,
) -> usize
    ensures value { result ≡ (passed_of (line_of line.entry.lat.now line.entry.lon.now) (record { at = at }) (position_of known y x)).cursor.at }
    ensures vertex_after { vertex.new ≡ or_vertex (passed_of (line_of line.entry.lat.now line.entry.lon.now) (record { at = at }) (position_of known y x)).vertex vertex.old }
{
    let passed = Cursor { at }.pass(line, position(known, y, x));
    *vertex = or_other(passed.vertex, *vertex);
    passed.cursor.at
}

pub fn zebumorn_snap_unit_scale(ratio: f64) -> f64
    ensures { result ≡ snap_unit_scale ratio }
{
    unit_scales::snap_unit_scale(ratio)
}

/// Writes the start and the scale of a calibration to `a` and `b`, which stay as they were where there is none, and says whether there is one.
pub fn write_affine(answer: Option<Affine>, a: &mut f64, b: &mut f64) -> bool
    ensures value { result ≡ is_by answer }
    ensures a_after { a.new ≡ start_or answer a.old }
    ensures b_after { b.new ≡ scale_or answer b.old }
{
    match answer {
        Some(affine) => {
            *a = affine.a;
            *b = affine.b;
            true
        }
        None => false,
    }
}

// The start and the scale go to `a` and `b`, which stay as they were where there is no answer.
pub fn zebumorn_shape_dist_affine(
    line: Polyline,
    y0: f64,
    x0: f64,
    d0: f64,
    y1: f64,
    x1: f64,
    d1: f64,
    a: &mut f64,
    b: &mut f64,
) -> bool
    ensures value { result ≡ is_by (affine_asked line.entry.lat.now line.entry.lon.now y0 x0 d0 y1 x1 d1) }
    ensures a_after { a.new ≡ start_or (affine_asked line.entry.lat.now line.entry.lon.now y0 x0 d0 y1 x1 d1) a.old }
    ensures b_after { b.new ≡ scale_or (affine_asked line.entry.lat.now line.entry.lon.now y0 x0 d0 y1 x1 d1) b.old }
{
    let first = Sample {
        at: Point { lat: y0, lon: x0 },
        dist: d0,
    };
    let last = Sample {
        at: Point { lat: y1, lon: x1 },
        dist: d1,
    };
    write_affine(calibration::shape_dist_affine(line, first, last), a, b)
}
