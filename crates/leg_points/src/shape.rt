// The part of the shape that a leg is drawn along.
ghost use Rattle.std.specs.Prelude.{◌≡◌, ◌+◌};
ghost use Rattle.lengths.specs.Line.{line_of};
ghost use Rattle.projection.specs.Projection.{cursor_after};
ghost use Rattle.trip_rows.specs.Rows.{row_position};
ghost use Rattle.trip_vertices.specs.Vertices.{positions_from};
ghost use Rattle.leg_points.specs.Leg.{trip_positions, ends_of_leg, leg_part};

use crate::leg::LegRows;
use ids::Lent;
use leg_parts::{between, leg_ends};
use lengths::Polyline;
use line_parts::{Part, whole};
use projection::Cursor;
use trip_rows::row_position;

// Where the cursor is after the stops of n rows of the trip, from row `skip` on.
fn run(lent: &Lent, leg: LegRows, line: Polyline, at: usize, skip: u32, n: u32) -> usize
    ensures { result ≡ (cursor_after (line_of line.entry.lat.now line.entry.lon.now) (record { at = at }) (positions_from (row_position lent.now.bytes.now lent.now.words.now lent.now.reals.now leg.stops leg.calls) (leg.first + skip) n)).at }
{
    let from = leg.first as usize + skip as usize;
    let mut cursor = Cursor { at };
    for k in 0..n as usize {
        let stop = row_position(lent, leg.stops, leg.calls, from + k);
        cursor = cursor.pass(line, stop).cursor;
    }
    cursor.at
}

// From the vertex of the one stop to that of the other. The whole shape where one of them has no position, and where both have the same vertex.
pub fn part(lent: &Lent, leg: LegRows, line: Polyline) -> Part
    ensures { result ≡ leg_part (line_of line.entry.lat.now line.entry.lon.now) (trip_positions lent.now.bytes.now lent.now.words.now lent.now.reals.now leg) (ends_of_leg leg) }
{
    if leg.count == 0 {
        return whole(line);
    }
    let ends = leg_ends(leg.count, leg.from, leg.to);
    let first = leg.first as usize;
    let Some(_) = row_position(lent, leg.stops, leg.calls, first + ends.board as usize) else {
        return whole(line);
    };
    let Some(_) = row_position(lent, leg.stops, leg.calls, first + ends.alight as usize) else {
        return whole(line);
    };
    let skip = ends.board + 1;
    let left = ends.alight - ends.board;
    let i = run(lent, leg, line, 0, 0, skip);
    let j = run(lent, leg, line, i, skip, left);
    between(line, i, j)
}
