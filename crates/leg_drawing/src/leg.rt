// The operation.
ghost use Rattle.std.specs.Prelude.{◌≡◌, length};
ghost use Rattle.refusals.specs.Answer.{answer_of};
ghost use Rattle.tables.specs.Pools.{pools_of};
ghost use Rattle.tables.specs.Bounds.{chart_bounds};
ghost use Rattle.verdicts.specs.Refuse.{refusal_of};
ghost use Rattle.geometry_checks.specs.Operations.{leg_causes};
ghost use Rattle.point_columns.specs.Answers.{drawn_answer, lat_after, lon_after};
ghost use Rattle.point_columns.specs.Columns.{SameColumns};
ghost use Rattle.leg_points.specs.Leg.{trip_positions, ends_of_leg, stops_drawn};
ghost use Rattle.leg_drawing.specs.Trip.{found_points, asked_points};

use geometry_checks::check_leg;
use ids::Lent;
use leg_points::{LegRows, draw_stops};
use lengths::{Polyline, vertices};
use point_columns::Sheet;
use refusals::Refusal;
use shape_drawing::along_shape;
use tables::{Bounds, LegAsked, Tables};
use trip_ids::by_key;
use trip_rows::{shape_column, trip_span};

// Draws the leg from stop to stop.
fn from_stop_to_stop(lent: &Lent, leg: LegRows, sheet: &mut Sheet) -> Result<usize, Refusal>
    requires { length sheet.old.lat.now ≡ length sheet.old.lon.now }
    ensures result_value { answer_of result ≡ drawn_answer 0 (stops_drawn (trip_positions lent.now.bytes.now lent.now.words.now lent.now.reals.now leg) (ends_of_leg leg)) sheet.old.lat.now sheet.old.lon.now }
    ensures lat_after { sheet.new.lat.now ≡ lat_after 0 (stops_drawn (trip_positions lent.now.bytes.now lent.now.words.now lent.now.reals.now leg) (ends_of_leg leg)) sheet.old.lat.now sheet.old.lon.now }
    ensures lon_after { sheet.new.lon.now ≡ lon_after 0 (stops_drawn (trip_positions lent.now.bytes.now lent.now.words.now lent.now.reals.now leg) (ends_of_leg leg)) sheet.old.lat.now sheet.old.lon.now }
    ensures same { SameColumns sheet.old sheet.new }
{
    // drawn into a row of its own first, for how many points they are
    let mut spare_lat = [0.0; 1];
    let mut spare_lon = [0.0; 1];
    let mut spare = Sheet {
        lat: &mut spare_lat,
        lon: &mut spare_lon,
    };
    let n = draw_stops(lent, leg, &mut spare);
    if sheet.lat.len() < n {
        return Err(Refusal::Room);
    }
    let drawn = draw_stops(lent, leg, sheet);
    Ok(drawn)
}

// Draws the leg of the trip found, if there is one.
fn draw(
    lent: &Lent,
    t: Tables,
    found: Option<usize>,
    from: u32,
    to: u32,
    sheet: &mut Sheet,
) -> Result<usize, Refusal>
    requires { length sheet.old.lat.now ≡ length sheet.old.lon.now }
    ensures result_value { answer_of result ≡ drawn_answer 0 (found_points lent.now.bytes.now lent.now.words.now lent.now.reals.now t from to found) sheet.old.lat.now sheet.old.lon.now }
    ensures lat_after { sheet.new.lat.now ≡ lat_after 0 (found_points lent.now.bytes.now lent.now.words.now lent.now.reals.now t from to found) sheet.old.lat.now sheet.old.lon.now }
    ensures lon_after { sheet.new.lon.now ≡ lon_after 0 (found_points lent.now.bytes.now lent.now.words.now lent.now.reals.now t from to found) sheet.old.lat.now sheet.old.lon.now }
    ensures same { SameColumns sheet.old sheet.new }
{
    let Some(trip) = found else {
        return Ok(0);
    };
    let first = ids::cell(lent.words, t.trips.first, trip);
    let count = ids::cell(lent.words, t.trips.count, trip);
    let leg = LegRows {
        stops: t.stops,
        calls: t.times,
        first,
        count,
        from,
        to,
    };
    let points = trip_span(lent, t.trips, t.shapes, trip);
    let lats = shape_column(lent.reals, t.points.lat, points);
    let lons = shape_column(lent.reals, t.points.lon, points);
    let line = Polyline {
        lat: lats,
        lon: lons,
    };
    if vertices(line) == 0 {
        return from_stop_to_stop(lent, leg, sheet);
    }
    along_shape(lent, leg, line, sheet)
}

// Draws the leg of the trip asked of, from one offset of its stop times to another.
pub fn leg_geometry(
    lent: &Lent,
    t: Tables,
    l: LegAsked,
    from: u32,
    to: u32,
    sheet: &mut Sheet,
) -> Result<usize, Refusal>
    ensures result_value { answer_of result ≡ drawn_answer (refusal_of (pools_of lent.now) (leg_causes chart_bounds t l)) (asked_points (pools_of lent.now) t l from to) sheet.old.lat.now sheet.old.lon.now }
    ensures lat_after { sheet.new.lat.now ≡ lat_after (refusal_of (pools_of lent.now) (leg_causes chart_bounds t l)) (asked_points (pools_of lent.now) t l from to) sheet.old.lat.now sheet.old.lon.now }
    ensures lon_after { sheet.new.lon.now ≡ lon_after (refusal_of (pools_of lent.now) (leg_causes chart_bounds t l)) (asked_points (pools_of lent.now) t l from to) sheet.old.lat.now sheet.old.lon.now }
    ensures same { SameColumns sheet.old sheet.new }
{
    if sheet.lat.len() != sheet.lon.len() {
        return Err(Refusal::Columns);
    }
    check_leg(lent, Bounds::chart(), t, l)?;
    let asked = ids::id(lent, l.trip, 0);
    let found = by_key(lent, t.tripkeys, asked);
    draw(lent, t, found, from, to, sheet)
}
