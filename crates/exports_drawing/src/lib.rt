// The C names under which tools/oracle calls leg drawing. Each says no more than the function that it calls.
#![tactic(auto)]

ghost use Rattle.std.specs.Prelude.{◌≡◌};
ghost use Rattle.refusals.specs.Answer.{number_of, value_or};
ghost use Rattle.tables.specs.Pools.{pools};
ghost use Rattle.tables.specs.Bounds.{chart_bounds};
ghost use Rattle.verdicts.specs.Refuse.{refusal_of};
ghost use Rattle.geometry_checks.specs.Operations.{leg_causes};
ghost use Rattle.point_columns.specs.Answers.{drawn_answer, lat_after, lon_after};
ghost use Rattle.leg_drawing.specs.Trip.{asked_points};
ghost use Rattle.journey_rules.specs.Causes.{journey_causes};
ghost use Rattle.journey_points.specs.Journey.{journey_points};

use ids::{IdColumn, Lent};
use journey_rules::JourneyLegs;
use journeys::journey_geometry;
use leg_drawing::leg_geometry;
use point_columns::Sheet;
use refusals::told;
use tables::{LegAsked, Tables};

#[unsafe(no_mangle)]
pub extern "C" fn zebumorn_leg_geometry(
    bytes: &[u8],
    words: &[u32],
    times: &[i64],
    reals: &[f64],
    dists: &[f32],
    t: Tables,
    trip: IdColumn,
    from: u32,
    to: u32,
    lat: &mut [f64],
    lon: &mut [f64],
    points: &mut usize,
) -> u32
    ensures value { result ≡ number_of (drawn_answer (refusal_of (pools bytes.now words.now times.now reals.now dists.now) (leg_causes chart_bounds t (record { trip = trip }))) (asked_points (pools bytes.now words.now times.now reals.now dists.now) t (record { trip = trip }) from to) lat.old lon.old) }
    ensures points_after { points.new ≡ value_or points.old (drawn_answer (refusal_of (pools bytes.now words.now times.now reals.now dists.now) (leg_causes chart_bounds t (record { trip = trip }))) (asked_points (pools bytes.now words.now times.now reals.now dists.now) t (record { trip = trip }) from to) lat.old lon.old) }
    ensures lat_after { lat.new ≡ lat_after (refusal_of (pools bytes.now words.now times.now reals.now dists.now) (leg_causes chart_bounds t (record { trip = trip }))) (asked_points (pools bytes.now words.now times.now reals.now dists.now) t (record { trip = trip }) from to) lat.old lon.old }
    ensures lon_after { lon.new ≡ lon_after (refusal_of (pools bytes.now words.now times.now reals.now dists.now) (leg_causes chart_bounds t (record { trip = trip }))) (asked_points (pools bytes.now words.now times.now reals.now dists.now) t (record { trip = trip }) from to) lat.old lon.old }
{
    let lent = Lent {
        bytes,
        words,
        times,
        reals,
        dists,
    };
    let mut sheet = Sheet { lat, lon };
    let drawn = leg_geometry(&lent, t, LegAsked { trip }, from, to, &mut sheet);
    told(drawn, points)
}

#[unsafe(no_mangle)]
pub extern "C" fn zebumorn_journey_geometry(
    bytes: &[u8],
    words: &[u32],
    times: &[i64],
    reals: &[f64],
    dists: &[f32],
    j: JourneyLegs,
    lat: &mut [f64],
    lon: &mut [f64],
    points: &mut usize,
) -> u32
    ensures value { result ≡ number_of (drawn_answer (refusal_of (pools bytes.now words.now times.now reals.now dists.now) (journey_causes chart_bounds j)) (journey_points bytes.now words.now reals.now j) lat.old lon.old) }
    ensures points_after { points.new ≡ value_or points.old (drawn_answer (refusal_of (pools bytes.now words.now times.now reals.now dists.now) (journey_causes chart_bounds j)) (journey_points bytes.now words.now reals.now j) lat.old lon.old) }
    ensures lat_after { lat.new ≡ lat_after (refusal_of (pools bytes.now words.now times.now reals.now dists.now) (journey_causes chart_bounds j)) (journey_points bytes.now words.now reals.now j) lat.old lon.old }
    ensures lon_after { lon.new ≡ lon_after (refusal_of (pools bytes.now words.now times.now reals.now dists.now) (journey_causes chart_bounds j)) (journey_points bytes.now words.now reals.now j) lat.old lon.old }
{
    let lent = Lent {
        bytes,
        words,
        times,
        reals,
        dists,
    };
    let mut sheet = Sheet { lat, lon };
    let journey = journey_geometry(&lent, j, &mut sheet);
    told(journey, points)
}
