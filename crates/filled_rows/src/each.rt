// The rows of a trip, one by one.
ghost use Rattle.std.specs.Prelude.{◌≡◌, ◌<◌, length};
ghost use Rattle.lengths.specs.Line.{line_of};
ghost use Rattle.projection.specs.Projection.{projection_of};
ghost use Rattle.trip_rows.specs.Rows.{row_position};
ghost use Rattle.trip_vertices.specs.Vertices.{positions_from};
ghost use Rattle.row_distances.specs.Rows.{rows_of, dists_in, marks_in};
ghost use Rattle.filled_rows.specs.Walk.{fill_all};

use crate::walk::walk;
use ids::Lent;
use lengths::Polyline;
use row_distances::{Distance, Unit};
use tables::{StopTimes, Stops};
use trip_rows::row_position;

// Writes the missing distances of n rows from `first` on, in a unit.
pub fn fill(
    lent: &Lent,
    stops: Stops,
    calls: StopTimes,
    line: Polyline,
    unit: Unit,
    first: u32,
    n: u32,
    dist: &mut [f32],
    measured: &mut [u8],
)
    requires nonzero { 0 < length (line_of line.lat.now line.lon.now) }
    requires n_value { n ≡ length dist.old }
    requires n_value_2 { n ≡ length measured.old }
    ensures dist_after { dist.new ≡ dists_in (fill_all (line_of line.entry.lat.now line.entry.lon.now) unit (projection_of (line_of line.entry.lat.now line.entry.lon.now) (positions_from (row_position lent.now.bytes.now lent.now.words.now lent.now.reals.now stops calls) first n)) (rows_of dist.old measured.old)) }
    ensures measured_after { measured.new ≡ marks_in (fill_all (line_of line.entry.lat.now line.entry.lon.now) unit (projection_of (line_of line.entry.lat.now line.entry.lon.now) (positions_from (row_position lent.now.bytes.now lent.now.words.now lent.now.reals.now stops calls) first n)) (rows_of dist.old measured.old)) }
{
    let from = first as usize;
    let mut at = 0;
    let mut sum = 0.0;
    for k in 0..n as usize {
        let row = Distance {
            dist: dist[k],
            measured: measured[k],
        };
        let walked = walk(
            line,
            unit,
            at,
            sum,
            row_position(lent, stops, calls, from + k),
            row,
        );
        let after = walked.row;
        dist[k] = after.dist;
        measured[k] = after.measured;
        at = walked.at;
        sum = walked.sum;
    }
}
