// The rows of one trip.
ghost use Rattle.std.specs.Prelude.{◌≡◌, length};
ghost use Rattle.std.specs.List.{list_any};
ghost use Rattle.lengths.specs.Line.{line_of};
ghost use Rattle.trip_rows.specs.Rows.{row_position};
ghost use Rattle.trip_vertices.specs.Vertices.{positions_from};
ghost use Rattle.row_distances.specs.Rows.{rows_of, dists_in, marks_in};
ghost use Rattle.backfill.specs.Samples.{feed_unit, ends_unit};
ghost use Rattle.backfill.specs.Trip.{is_missing, is_measured, unit_of, backfill_of};

use crate::ends::{Ends, ends_of};
use calibration::shape_dist_affine;
use filled_rows::fill;
use ids::Lent;
use lengths::{Polyline, vertices};
use row_distances::Unit;
use tables::{StopTimes, Stops};
use unit_scales::Affine;

// Whether some row has no distance.
fn any_missing(measured: &[u8]) -> bool
    ensures { result ≡ list_any is_missing measured.now }
{
    measured.iter().any(|m| *m == 0)
}

// Whether some row has one.
fn any_measured(measured: &[u8]) -> bool
    ensures { result ≡ list_any is_measured measured.now }
{
    measured.iter().any(|m| *m != 0)
}

// The unit that a calibration is.
fn told(c: Option<Affine>) -> Unit
    ensures { result ≡ feed_unit c }
{
    match c {
        Some(k) => Unit::Feed(k),
        None => Unit::Unknown,
    }
}

// The unit that the first and the last sample tell.
fn ends_unit(line: Polyline, ends: Ends) -> Unit
    ensures { result ≡ ends_unit (line_of line.entry.lat.now line.entry.lon.now) ends }
{
    match ends {
        Ends::Nothing => Unit::Unknown,
        Ends::One(_) => Unit::Unknown,
        Ends::Both(first, last) => told(shape_dist_affine(line, first, last)),
    }
}

// The unit that the missing distances of n rows from `first` on are written in.
fn unit_of(
    lent: &Lent,
    stops: Stops,
    calls: StopTimes,
    line: Polyline,
    first: u32,
    n: u32,
    dist: &[f32],
    measured: &[u8],
) -> Unit
    requires n_value { n ≡ length dist.now }
    requires n_value_2 { n ≡ length measured.now }
    ensures { result ≡ unit_of (line_of line.entry.lat.now line.entry.lon.now) (positions_from (row_position lent.now.bytes.now lent.now.words.now lent.now.reals.now stops calls) first n) (rows_of dist.now measured.now) }
{
    if !any_measured(measured) {
        return Unit::Metres;
    }
    ends_unit(line, ends_of(lent, stops, calls, first, n, dist, measured))
}

// Backfill of one trip: n rows of the stop times from `first` on, whose distances and flags are lent, on the line of its shape.
pub fn backfill_rows(
    lent: &Lent,
    stops: Stops,
    calls: StopTimes,
    line: Polyline,
    first: u32,
    n: u32,
    dist: &mut [f32],
    measured: &mut [u8],
)
    requires n_value { n ≡ length dist.old }
    requires n_value_2 { n ≡ length measured.old }
    ensures dist_after { dist.new ≡ dists_in (backfill_of (line_of line.entry.lat.now line.entry.lon.now) (positions_from (row_position lent.now.bytes.now lent.now.words.now lent.now.reals.now stops calls) first n) (rows_of dist.old measured.old)) }
    ensures measured_after { measured.new ≡ marks_in (backfill_of (line_of line.entry.lat.now line.entry.lon.now) (positions_from (row_position lent.now.bytes.now lent.now.words.now lent.now.reals.now stops calls) first n) (rows_of dist.old measured.old)) }
{
    if vertices(line) < 2 {
        return;
    }
    if !any_missing(measured) {
        return;
    }
    let unit = unit_of(lent, stops, calls, line, first, n, dist, measured);
    fill(lent, stops, calls, line, unit, first, n, dist, measured);
}
