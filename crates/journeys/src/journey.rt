// The operation.
ghost use Rattle.std.specs.Prelude.{◌≡◌, length};
ghost use Rattle.refusals.specs.Answer.{answer_of};
ghost use Rattle.tables.specs.Pools.{pools_of};
ghost use Rattle.tables.specs.Bounds.{chart_bounds};
ghost use Rattle.verdicts.specs.Refuse.{refusal_of};
ghost use Rattle.point_columns.specs.Answers.{drawn_answer, lat_after, lon_after};
ghost use Rattle.point_columns.specs.Columns.{SameColumns};
ghost use Rattle.journey_rules.specs.Causes.{journey_causes};
ghost use Rattle.journey_points.specs.Journey.{journey_points};

use crate::check::check_journey;
use ids::Lent;
use journey_points::draw_legs;
use journey_rules::JourneyLegs;
use point_columns::Sheet;
use refusals::Refusal;
use tables::Bounds;

// Draws the legs, if there is room.
fn draw(lent: &Lent, j: JourneyLegs, sheet: &mut Sheet) -> Result<usize, Refusal>
    requires { length sheet.old.lat.now ≡ length sheet.old.lon.now }
    ensures result_value { answer_of result ≡ drawn_answer 0 (journey_points lent.now.bytes.now lent.now.words.now lent.now.reals.now j) sheet.old.lat.now sheet.old.lon.now }
    ensures lat_after { sheet.new.lat.now ≡ lat_after 0 (journey_points lent.now.bytes.now lent.now.words.now lent.now.reals.now j) sheet.old.lat.now sheet.old.lon.now }
    ensures lon_after { sheet.new.lon.now ≡ lon_after 0 (journey_points lent.now.bytes.now lent.now.words.now lent.now.reals.now j) sheet.old.lat.now sheet.old.lon.now }
    ensures same { SameColumns sheet.old sheet.new }
{
    // drawn into a row of its own first, for how many points they are
    let mut spare_lat = [0.0; 1];
    let mut spare_lon = [0.0; 1];
    let mut spare = Sheet {
        lat: &mut spare_lat,
        lon: &mut spare_lon,
    };
    let n = draw_legs(lent, j, &mut spare);
    if sheet.lat.len() < n {
        return Err(Refusal::Room);
    }
    let drawn = draw_legs(lent, j, sheet);
    Ok(drawn)
}

// Draws the journey of the legs that are lent.
pub fn journey_geometry(lent: &Lent, j: JourneyLegs, sheet: &mut Sheet) -> Result<usize, Refusal>
    ensures result_value { answer_of result ≡ drawn_answer (refusal_of (pools_of lent.now) (journey_causes chart_bounds j)) (journey_points lent.now.bytes.now lent.now.words.now lent.now.reals.now j) sheet.old.lat.now sheet.old.lon.now }
    ensures lat_after { sheet.new.lat.now ≡ lat_after (refusal_of (pools_of lent.now) (journey_causes chart_bounds j)) (journey_points lent.now.bytes.now lent.now.words.now lent.now.reals.now j) sheet.old.lat.now sheet.old.lon.now }
    ensures lon_after { sheet.new.lon.now ≡ lon_after (refusal_of (pools_of lent.now) (journey_causes chart_bounds j)) (journey_points lent.now.bytes.now lent.now.words.now lent.now.reals.now j) sheet.old.lat.now sheet.old.lon.now }
    ensures same { SameColumns sheet.old sheet.new }
{
    if sheet.lat.len() != sheet.lon.len() {
        return Err(Refusal::Columns);
    }
    check_journey(lent, Bounds::chart(), j)?;
    draw(lent, j, sheet)
}
