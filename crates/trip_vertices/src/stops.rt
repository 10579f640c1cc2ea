// The stops of a trip.
ghost use Rattle.std.specs.Prelude.{◌≡◌, ◌++◌, ◌≤◌, length, drop};
ghost use Rattle.lengths.specs.Line.{line_of};
ghost use Rattle.refusals.specs.Answer.{answer_of};
ghost use Rattle.trip_rows.specs.Rows.{row_position};
ghost use Rattle.trip_vertices.specs.Vertices.{vertex_words};
ghost use Rattle.trip_vertices.specs.Written.{found_vertices, room_answer, room_output};

use crate::mark::mark;
use ids::Lent;
use lengths::Polyline;
use refusals::Refusal;
use tables::{StopTimes, Stops, Tables};
use trip_rows::{row_position, shape_column, trip_span};

// Writes the vertices of the stops of n rows from `first` on.
fn fill(
    lent: &Lent,
    stops: Stops,
    calls: StopTimes,
    line: Polyline,
    first: u32,
    n: u32,
    out: &mut [u32],
)
    requires lon_len_bound { length (line_of line.lat.now line.lon.now) ≤ 4294967295 }
    requires n_in_bounds { n ≤ length out.old }
    ensures { out.new ≡ vertex_words (line_of line.entry.lat.now line.entry.lon.now) (row_position lent.now.bytes.now lent.now.words.now lent.now.reals.now stops calls) first n ++ drop n out.old }
{
    let from = first as usize;
    let mut at = 0;
    for k in 0..n as usize {
        let marked = mark(line, at, row_position(lent, stops, calls, from + k));
        out[k] = marked.word;
        at = marked.at;
    }
}

// Writes the vertices of the stops of the trip found, if there is one and the output has room, and says how many.
pub fn write(
    lent: &Lent,
    t: Tables,
    found: Option<usize>,
    out: &mut [u32],
) -> Result<usize, Refusal>
    ensures result_value { answer_of result ≡ room_answer (found_vertices lent.now.bytes.now lent.now.words.now lent.now.reals.now t found) out.old }
    ensures out_after { out.new ≡ room_output (found_vertices lent.now.bytes.now lent.now.words.now lent.now.reals.now t found) out.old }
{
    let Some(trip) = found else {
        return Ok(0);
    };
    let stops = t.stops;
    let trips = t.trips;
    let calls = t.times;
    let shapes = t.shapes;
    let first = trips.first;
    let count = trips.count;
    let lats = t.points.lat;
    let lons = t.points.lon;
    let n = ids::cell(lent.words, count, trip);
    if out.len() < n as usize {
        return Err(Refusal::Room);
    }
    let points = trip_span(lent, trips, shapes, trip);
    fill(
        lent,
        stops,
        calls,
        Polyline {
            lat: shape_column(lent.reals, lats, points),
            lon: shape_column(lent.reals, lons, points),
        },
        ids::cell(lent.words, first, trip),
        n,
        out,
    );
    Ok(n as usize)
}
