// One trip, among the rows of all stop times.
ghost use Rattle.std.specs.Prelude.{◌≡◌, length};
ghost use Rattle.row_distances.specs.Rows.{rows_of, dists_in, marks_in};
ghost use Rattle.filled_trips.specs.Tables.{after_trip};

use backfill::backfill_rows;
use ids::Lent;
use lengths::Polyline;
use tables::Tables;
use trip_rows::{shape_column, trip_span};

// Backfill of the trip. Where its rows are not all there nothing is written.
pub fn backfill_in(lent: &Lent, t: Tables, trip: usize, dist: &mut [f32], measured: &mut [u8])
    requires { length dist.old ≡ length measured.old }
    ensures dist_after { dist.new ≡ dists_in (after_trip lent.now.bytes.now lent.now.words.now lent.now.reals.now t trip (rows_of dist.old measured.old)) }
    ensures measured_after { measured.new ≡ marks_in (after_trip lent.now.bytes.now lent.now.words.now lent.now.reals.now t trip (rows_of dist.old measured.old)) }
{
    let stops = t.stops;
    let trips = t.trips;
    let calls = t.times;
    let shapes = t.shapes;
    let firsts = trips.first;
    let counts = trips.count;
    let lats = t.points.lat;
    let lons = t.points.lon;
    let first = ids::cell(lent.words, firsts, trip);
    let n = ids::cell(lent.words, counts, trip);
    let from = first as usize;
    let to = from + n as usize;
    if dist.len() < to {
        return;
    }
    let points = trip_span(lent, trips, shapes, trip);
    backfill_rows(
        lent,
        stops,
        calls,
        Polyline {
            lat: shape_column(lent.reals, lats, points),
            lon: shape_column(lent.reals, lons, points),
        },
        first,
        n,
        &mut dist[from..to],
        &mut measured[from..to],
    );
}
