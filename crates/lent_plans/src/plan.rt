// The columns that a trip is found in by its line and its time.
ghost use Rattle.std.specs.Prelude.{◌≡◌};
ghost use Rattle.lent_plans.specs.Plans.{plan_of};

use tables::Tables;
use trip_fits::Plan;

pub fn plan_of(t: Tables) -> Plan
    ensures { result ≡ plan_of t }
{
    let trips = t.trips;
    let departures = t.times.departure;
    let lines = t.lines;
    let calendars = t.calendars;
    let ranges = t.ranges;
    let exceptions = t.exceptions;
    Plan {
        trips,
        departures,
        lines,
        calendars,
        ranges,
        exceptions,
    }
}
