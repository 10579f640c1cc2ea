// Each operation's check: the least refusal over the rules of every table that is lent to it.
ghost use Rattle.std.specs.Prelude.{◌≡◌};
ghost use Rattle.refusals.specs.Answer.{answer_of, number_of};
ghost use Rattle.tables.specs.Pools.{pools_of};
ghost use Rattle.verdicts.specs.Refuse.{refusal_of};
ghost use Rattle.verdicts.specs.Verdict.{least};
ghost use Rattle.geometry_checks.specs.Operations.{geometry_causes, leg_causes, interpolation_causes, calibration_causes};

use ids::Lent;
use refusals::Refusal;
use tables::{Along, Bounds, LegAsked, Samples, Tables};
use verdicts::Verdict;

// The causes of projection and backfill: stops, trips, stop times, shapes and points.
pub fn geometry(lent: &Lent, b: Bounds, t: Tables) -> Verdict
    ensures { least result ≡ refusal_of (pools_of lent.now) (geometry_causes b t) }
{
    let stops = stop_rules::stops(Verdict::new(), lent, b, t.stops);
    let trips = trip_rules::trips(stops, lent, b, t.trips, t.times.stop.n);
    let calls = schedule_rules::calls(trips, lent, b, t.times);
    let placing = schedule_rules::placing(
        calls,
        lent,
        t.trips,
        t.times,
        t.shapes.first.n,
        t.stops.lat.n,
    );
    let shapes = shape_rules::shapes(placing, lent, b, t.shapes, t.points.lat.n);
    shape_rules::points(shapes, lent, t.points)
}

// The check of projection and backfill.
pub fn check_geometry(lent: &Lent, b: Bounds, t: Tables) -> Result<(), Refusal>
    ensures { number_of (answer_of result) ≡ refusal_of (pools_of lent.now) (geometry_causes b t) }
{
    geometry(lent, b, t).finish()
}

// The check of leg drawing: the same, the trip ids, and the trip asked of.
pub fn check_leg(lent: &Lent, b: Bounds, t: Tables, l: LegAsked) -> Result<(), Refusal>
    ensures { number_of (answer_of result) ≡ refusal_of (pools_of lent.now) (leg_causes b t l) }
{
    let geometry = geometry(lent, b, t);
    let tripkeys = lookup_rules::id_rows(geometry, lent, b, t.tripkeys, b.trips, t.trips.first.n);
    asked_rules::leg_asked(tripkeys, lent, b, l).finish()
}

// The check of interpolation alone: the line, the ends of a leg, distances and numbers.
pub fn check_interpolation(lent: &Lent, b: Bounds, a: Along) -> Result<(), Refusal>
    ensures { number_of (answer_of result) ≡ refusal_of (pools_of lent.now) (interpolation_causes b a) }
{
    let line = shape_rules::points_within(Verdict::new(), lent, a.line, b.points);
    let ends = shape_rules::points(line, lent, a.ends);
    shape_rules::measures(ends, lent, a.dists, a.numbers, a.dists.n).finish()
}

// The check of calibration alone: the line, samples and numbers.
pub fn check_calibration(lent: &Lent, b: Bounds, s: Samples) -> Result<(), Refusal>
    ensures { number_of (answer_of result) ≡ refusal_of (pools_of lent.now) (calibration_causes b s) }
{
    let line = shape_rules::points_within(Verdict::new(), lent, s.line, b.points);
    let at = shape_rules::points_within(line, lent, s.at, b.calls);
    shape_rules::measures(at, lent, s.dist, s.numbers, s.at.lat.n).finish()
}
