// Each operation's check: the least refusal over the rules of every table that is lent to it.
ghost use Rattle.std.specs.Prelude.{◌≡◌};
ghost use Rattle.refusals.specs.Answer.{answer_of, number_of};
ghost use Rattle.tables.specs.Pools.{pools_of};
ghost use Rattle.verdicts.specs.Refuse.{least_of, refusal_of};
ghost use Rattle.verdicts.specs.Verdict.{least};
ghost use Rattle.checks.specs.Operations.{calendar_tables_causes, trip_lookup_causes, service_day_causes, matching_causes, estimate_causes};

use geometry_checks::geometry;
use ids::Lent;
use refusals::Refusal;
use tables::{Bounds, Journey, Service, Tables};
use verdicts::Verdict;

// The calendars, ranges and exceptions.
fn calendar_tables(verdict: Verdict, lent: &Lent, b: Bounds, t: Tables) -> Verdict
    ensures { least result ≡ least_of (pools_of lent.now) (least verdict) (calendar_tables_causes b t) }
{
    let calendars = calendar_rules::calendars(verdict, lent, b, t.calendars);
    let ranges = calendar_rules::ranges(calendars, lent, b, t.ranges);
    calendar_rules::exceptions(ranges, lent, b, t.exceptions)
}

// What a trip is looked up by: trip ids, aliases, lines.
fn trip_lookup(verdict: Verdict, lent: &Lent, b: Bounds, t: Tables) -> Verdict
    ensures { least result ≡ least_of (pools_of lent.now) (least verdict) (trip_lookup_causes b t) }
{
    let tripkeys = lookup_rules::id_rows(verdict, lent, b, t.tripkeys, b.trips, t.trips.first.n);
    let aliases = lookup_rules::aliases(tripkeys, lent, b, t.aliases);
    lookup_rules::lines(aliases, lent, b, t.lines, t.trips.first.n)
}

// The check of whether a service runs: the calendar tables, and the service asked of.
pub fn check_service(lent: &Lent, b: Bounds, t: Tables, s: Service) -> Result<(), Refusal>
    ensures { number_of (answer_of result) ≡ refusal_of (pools_of lent.now) (service_day_causes b t s) }
{
    let calendars = calendar_tables(Verdict::new(), lent, b, t);
    asked_rules::service(calendars, lent, b, s).finish()
}

// The check of trip matching: trips, stop times, what a trip is looked up by, the calendar tables, and the journey asked of.
pub fn check_matching(lent: &Lent, b: Bounds, t: Tables, j: Journey) -> Result<(), Refusal>
    ensures { number_of (answer_of result) ≡ refusal_of (pools_of lent.now) (matching_causes b t j) }
{
    let rows = t.times.stop.n;
    let trips = trip_rules::trips(Verdict::new(), lent, b, t.trips, rows);
    let calls = schedule_rules::calls(trips, lent, b, t.times);
    let times = schedule_rules::call_times(calls, lent, t.times);
    let lookup = trip_lookup(times, lent, b, t);
    let calendars = calendar_tables(lookup, lent, b, t);
    asked_rules::journey(calendars, lent, b, j).finish()
}

// The check of the estimate: every table.
pub fn check_estimate(lent: &Lent, b: Bounds, t: Tables) -> Result<(), Refusal>
    ensures { number_of (answer_of result) ≡ refusal_of (pools_of lent.now) (estimate_causes b t) }
{
    let geometry = geometry(lent, b, t);
    let times = schedule_rules::call_times(geometry, lent, t.times);
    let stopkeys = lookup_rules::id_rows(times, lent, b, t.stopkeys, b.stops, t.stops.lat.n);
    let lookup = trip_lookup(stopkeys, lent, b, t);
    let calendars = calendar_tables(lookup, lent, b, t);
    let updates = update_rules::updates(calendars, lent, b, t.updates);
    let arrivals = update_rules::arrivals(updates, lent, t.updates);
    let departures = update_rules::update_departures(arrivals, lent, t.updates);
    update_rules::sailing(departures, lent, b, t.sailing).finish()
}
