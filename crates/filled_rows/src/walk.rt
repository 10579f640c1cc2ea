// From stop to stop along the line, with the length to there.
ghost use Rattle.std.specs.Prelude.{◌≡◌, ◌≤◌, ◌<◌, length};
ghost use Rattle.lengths.specs.Line.{line_of};
ghost use Rattle.running_lengths.specs.Length.{length_to};
ghost use Rattle.filled_rows.specs.Walk.{walked_of};

use lengths::{Point, Polyline, metres, vertex};
use projection::Cursor;
use row_distances::{Distance, Unit, filled};

// The length along a line to a vertex, from that to an earlier one.
fn length_on(line: Polyline, from: usize, sum: f64, to: usize) -> f64
    requires sum_value { sum ≡ length_to (line_of line.lat.now line.lon.now) from }
    requires from_le_to { from ≤ to }
    requires to_in_bounds { to < length (line_of line.lat.now line.lon.now) }
    ensures { result ≡ length_to (line_of line.entry.lat.now line.entry.lon.now) to }
{
    let mut m = sum;
    for k in from..to {
        m += metres(vertex(line, k), vertex(line, k + 1));
    }
    m
}

// Where the cursor is after a stop, the length to there, and the stop's row.
#[derive(Clone, Copy)]
pub(crate) struct Walked {
    pub at: usize,
    pub sum: f64,
    pub row: Distance,
}

// Takes a stop and its row.
pub(crate) fn walk(
    line: Polyline,
    unit: Unit,
    at: usize,
    sum: f64,
    stop: Option<Point>,
    row: Distance,
) -> Walked
    requires at_in_bounds { at < length (line_of line.lat.now line.lon.now) }
    requires sum_value { sum ≡ length_to (line_of line.lat.now line.lon.now) at }
    ensures { result ≡ walked_of (line_of line.entry.lat.now line.entry.lon.now) unit at stop row }
{
    let Some(point) = stop else {
        return Walked { at, sum, row };
    };
    let step = Cursor { at }.step(line, point);
    let next = step.vertex;
    let m = length_on(line, at, sum, next);
    Walked {
        at: next,
        sum: m,
        row: filled(unit, m, row),
    }
}
