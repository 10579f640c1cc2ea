// The stops of a leg, where the trip has no shape.
ghost use Rattle.std.specs.Prelude.{◌≡◌, ◌++◌, ◌≤◌, length, drop};
ghost use Rattle.point_columns.specs.Columns.{SameColumns};
ghost use Rattle.point_columns.specs.Drawn.{lats_of, lons_of};
ghost use Rattle.leg_points.specs.Leg.{trip_positions, ends_of_leg, stops_drawn};

use crate::leg::LegRows;
use ids::Lent;
use leg_parts::{leg_ends, next};
use point_columns::{Sheet, later};
use trip_rows::row_position;

// Draws the stops from the one to the other, as far as the columns have room, and answers how many points they are.
pub fn draw_stops(lent: &Lent, leg: LegRows, sheet: &mut Sheet) -> usize
    ensures value { result ≡ length (stops_drawn (trip_positions lent.now.bytes.now lent.now.words.now lent.now.reals.now leg) (ends_of_leg leg)) }
    ensures lat_after { result ≤ length sheet.old.lat.now → sheet.new.lat.now ≡ lats_of (stops_drawn (trip_positions lent.now.bytes.now lent.now.words.now lent.now.reals.now leg) (ends_of_leg leg)) ++ drop result sheet.old.lat.now }
    ensures lon_after { result ≤ length sheet.old.lon.now → sheet.new.lon.now ≡ lons_of (stops_drawn (trip_positions lent.now.bytes.now lent.now.words.now lent.now.reals.now leg) (ends_of_leg leg)) ++ drop result sheet.old.lon.now }
    ensures lat_kept { length sheet.new.lat.now ≡ length sheet.old.lat.now }
    ensures lon_kept { length sheet.new.lon.now ≡ length sheet.old.lon.now }
    ensures same { SameColumns sheet.old sheet.new }
{
    if leg.count == 0 {
        return 0;
    }
    let ends = leg_ends(leg.count, leg.from, leg.to);
    let row = leg.first as usize + ends.board as usize;
    let rows = (ends.alight - ends.board) as usize + 1;
    let mut last = None;
    let mut at = 0;
    for k in 0..rows {
        let drawn = next(last, row_position(lent, leg.stops, leg.calls, row + k));
        at = sheet.put(at, drawn);
        last = later(last, drawn);
    }
    at
}
