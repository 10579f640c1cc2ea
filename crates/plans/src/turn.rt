// With a call: which call or leg the clock falls to, and the outcome there. Calls are lent as columns.
ghost use Rattle.std.specs.Prelude.{◌≡◌, ◌+◌, ◌<◌, ◌≤◌, length};
ghost use Rattle.tables.specs.Pools.{pools_of};
ghost use Rattle.tables.specs.Bounds.{chart_bounds};
ghost use Rattle.verdicts.specs.Refuse.{refusal_of};
ghost use Rattle.checks.specs.Operations.{estimate_causes};
ghost use Rattle.sailings.specs.Sailing.{sailing_trip};
ghost use Rattle.timeline.specs.Turn.{turn_of};
ghost use Rattle.leg_paths.specs.Leg.{leg_count};
ghost use Rattle.voyages.specs.Outcome.{approach_status, approaching, under_way_at, towards_at, at_turn};
ghost use Rattle.call_places.specs.Places.{call_end};
ghost use Rattle.plans.specs.Plan.{course_of, row_end, approach_from, voyage_from};

use crate::leg::walk_leg;
use call_places::{at_call, call_end, departed};
use fractions::{approach_fraction, incoming, leg_fraction};
use ids::{Lent, cell, word};
use legs::Walked;
use paths::{End, Status};
use previous::previous_row;
use sailings::sailing_trip;
use scheduled_runs::run_seconds;
use tables::Tables;
use timeline::{Turn, moment, turn_of};
use trip_rows::stop_point;
use voyages::{Placed, on_leg};

// A row of the stop times as an end of a leg.
fn row_end(lent: &Lent, t: Tables, row: usize) -> End
    ensures { result ≡ row_end lent.now.words.now lent.now.reals.now t row }
{
    let sequences = t.times.sequence;
    let at = t.times.stop;
    let stops = t.stops;
    End {
        sequence: cell(lent.words, sequences, row),
        at: stop_point(lent.reals, stops, cell(lent.words, at, row) as usize),
    }
}

// On the leg from call k to the next.
fn under_way(
    lent: &Lent,
    t: Tables,
    trip: Option<usize>,
    rows: &[u32],
    stops: &[u32],
    arrivals: &[u64],
    departures: &[u64],
    clock: u64,
    k: usize,
) -> Placed
    requires trip_bound { leg_count lent.now.words.now (course_of t) trip ≤ 1000000 }
    requires k_bound { k < 256 }
    ensures { result ≡ under_way_at (voyage_from (pools_of lent.now) t trip rows.now stops.now arrivals.now departures.now) clock k }
{
    let from = call_end(lent, t, rows, stops, k);
    let to = call_end(lent, t, rows, stops, k + 1);
    let frac = leg_fraction(clock, moment(departures, k), moment(arrivals, k + 1));
    let walked = walk_leg(lent, t, k as u32 + 2, trip, from, to, frac);
    let status = walked.status;
    on_leg(walked, status, word(stops, k + 1) as usize, to.sequence)
}

// The status of an approach: nearly over, whatever the path, else the path's.
fn approach_status(frac: f64, walked: Walked) -> Status
    ensures { result ≡ approach_status frac walked }
{
    if incoming(frac) {
        return Status::IncomingAt;
    }
    walked.status
}

// Towards the first call: on the leg to it from a row of the stop times, or at it where there is none.
fn approach_from(
    lent: &Lent,
    t: Tables,
    trip: Option<usize>,
    rows: &[u32],
    stops: &[u32],
    arrivals: &[u64],
    departures: &[u64],
    clock: u64,
    before: Option<usize>,
) -> Placed
    requires { leg_count lent.now.words.now (course_of t) trip ≤ 1000000 }
    ensures { result ≡ approaching (voyage_from (pools_of lent.now) t trip rows.now stops.now arrivals.now departures.now) clock (approach_from lent.now.bytes.now lent.now.words.now lent.now.reals.now lent.now.dists.now t trip before (call_end lent.now.words.now lent.now.reals.now t rows.now stops.now 0)) }
{
    let Some(row) = before else {
        return at_call(lent, t, rows, stops, 0, Status::IncomingAt);
    };
    let trips = t.trips;
    let calls = t.times;
    let from = row_end(lent, t, row);
    let to = call_end(lent, t, rows, stops, 0);
    let run = run_seconds(lent.words, trips, calls, trip, from.sequence, to.sequence);
    let frac = approach_fraction(clock, moment(arrivals, 0), run);
    let walked = walk_leg(lent, t, 1, trip, from, to, frac);
    let status = approach_status(frac, walked);
    on_leg(walked, status, word(stops, 0) as usize, to.sequence)
}

// Towards the first call, unless she has departed.
fn towards(
    lent: &Lent,
    t: Tables,
    rows: &[u32],
    stops: &[u32],
    arrivals: &[u64],
    departures: &[u64],
    clock: u64,
) -> Placed
    requires { refusal_of (pools_of lent.now) (estimate_causes chart_bounds t) ≡ 0 }
    ensures { result ≡ towards_at (voyage_from (pools_of lent.now) t (sailing_trip lent.now.bytes.now lent.now.words.now lent.now.times.now t) rows.now stops.now arrivals.now departures.now) clock }
{
    let trips = t.trips;
    let calls = t.times;
    let places = t.stops;
    if moment(departures, 0) < clock {
        return departed(lent, t, rows, stops);
    }
    let trip = sailing_trip(lent, t);
    let to = call_end(lent, t, rows, stops, 0);
    let stop = word(stops, 0) as usize;
    let before = previous_row(lent, trips, calls, places, trip, to.sequence, stop);
    approach_from(
        lent, t, trip, rows, stops, arrivals, departures, clock, before,
    )
}

// At the turn that the clock falls to.
pub fn at_turn(
    lent: &Lent,
    t: Tables,
    rows: &[u32],
    stops: &[u32],
    arrivals: &[u64],
    departures: &[u64],
    clock: u64,
) -> Placed
    requires t_value { refusal_of (pools_of lent.now) (estimate_causes chart_bounds t) ≡ 0 }
    requires arrivals_len_bound { length arrivals.now ≤ 256 }
    ensures { result ≡ at_turn (voyage_from (pools_of lent.now) t (sailing_trip lent.now.bytes.now lent.now.words.now lent.now.times.now t) rows.now stops.now arrivals.now departures.now) clock (turn_of clock arrivals.now departures.now) }
{
    let turn = turn_of(arrivals, departures, clock);
    match turn {
        Turn::At(k) => at_call(lent, t, rows, stops, k, Status::StoppedAt),
        Turn::Between(k) => {
            let trip = sailing_trip(lent, t);
            under_way(lent, t, trip, rows, stops, arrivals, departures, clock, k)
        }
        Turn::Towards => towards(lent, t, rows, stops, arrivals, departures, clock),
        Turn::After => {
            let last = arrivals.len().saturating_sub(1);
            at_call(lent, t, rows, stops, last, Status::StoppedAt)
        }
    }
}
