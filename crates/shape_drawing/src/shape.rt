// A leg drawn along the shape.
ghost use Rattle.std.specs.Prelude.{◌≡◌, ◌-◌, ◌<◌, ◌≤◌, length, take, drop};
ghost use Rattle.lengths.specs.Line.{line_of};
ghost use Rattle.refusals.specs.Answer.{answer_of};
ghost use Rattle.point_columns.specs.Answers.{drawn_answer, lat_after, lon_after};
ghost use Rattle.point_columns.specs.Columns.{SameColumns};
ghost use Rattle.leg_points.specs.Leg.{trip_positions, ends_of_leg, part_drawn};

use ids::Lent;
use leg_points::{LegRows, part};
use lengths::Polyline;
use point_columns::{Sheet, put_rows};
use refusals::Refusal;

// The rows of a column from a up to e.
fn rows<'a>(column: &'a [f64], a: usize, e: usize) -> &'a [f64]
    requires { (a ≤ e) × (e ≤ length column.now) }
    ensures { result.now ≡ take (e - a) (drop a column.now) }
{
    &column[a..e]
}

// Draws the leg along the shape, which has a point.
pub fn along_shape(
    lent: &Lent,
    leg: LegRows,
    line: Polyline,
    sheet: &mut Sheet,
) -> Result<usize, Refusal>
    requires nonzero { 0 < length (line_of line.lat.now line.lon.now) }
    requires lat_len { length sheet.old.lat.now ≡ length sheet.old.lon.now }
    ensures result_value { answer_of result ≡ drawn_answer 0 (part_drawn (line_of line.entry.lat.now line.entry.lon.now) (trip_positions lent.now.bytes.now lent.now.words.now lent.now.reals.now leg) (ends_of_leg leg)) sheet.old.lat.now sheet.old.lon.now }
    ensures lat_after { sheet.new.lat.now ≡ lat_after 0 (part_drawn (line_of line.entry.lat.now line.entry.lon.now) (trip_positions lent.now.bytes.now lent.now.words.now lent.now.reals.now leg) (ends_of_leg leg)) sheet.old.lat.now sheet.old.lon.now }
    ensures lon_after { sheet.new.lon.now ≡ lon_after 0 (part_drawn (line_of line.entry.lat.now line.entry.lon.now) (trip_positions lent.now.bytes.now lent.now.words.now lent.now.reals.now leg) (ends_of_leg leg)) sheet.old.lat.now sheet.old.lon.now }
    ensures same { SameColumns sheet.old sheet.new }
{
    let drawn = part(lent, leg, line);
    let a = drawn.first;
    let e = drawn.last + 1;
    if sheet.lat.len() < e - a {
        return Err(Refusal::Room);
    }
    put_rows(rows(line.lat, a, e), sheet.lat);
    put_rows(rows(line.lon, a, e), sheet.lon);
    Ok(e - a)
}
