// The static trip that a sailing stands for.
ghost use Rattle.std.specs.Prelude.{◌≡◌};
ghost use Rattle.matching.specs.Matching.{Ready};
ghost use Rattle.moments.specs.Moments.{InReach};
ghost use Rattle.lent_plans.specs.Plans.{plan_of};
ghost use Rattle.timetable.specs.Timetable.{named_of};
ghost use Rattle.sailing_rows.specs.Rows.{offset_of};
ghost use Rattle.first_departures.specs.Firsts.{first_departure};
ghost use Rattle.sailings.specs.Sailing.{InTime, local_at, trip_from, sailing_trip};

use crate::departure::{has_departure, local};
use first_departures::first_departure;
use ids::Lent;
use lent_plans::plan_of;
use matching::{Named, resolve};
use moments::{today, yesterday};
use sailing_rows::{base_key, offset, route};
use tables::Tables;

// Of a sailing whose first departure is this.
fn trip_from(lent: &Lent, t: Tables, first: Option<u64>) -> Option<usize>
    requires ready { Ready lent.now.bytes.now lent.now.words.now (named_of t) (plan_of t) }
    requires in_time { InTime first }
    requires in_reach { InReach (local_at first (offset_of lent.now.times.now t.sailing)) }
    ensures { result ≡ trip_from lent.now.bytes.now lent.now.words.now lent.now.times.now t first }
{
    let tripkeys = t.tripkeys;
    let aliases = t.aliases;
    let s = t.sailing;
    let n = Named { tripkeys, aliases };
    let p = plan_of(t);
    let at = local(first, offset(lent.times, s));
    resolve(
        lent,
        n,
        p,
        base_key(lent, s),
        route(lent, s),
        has_departure(first),
        today(at),
        yesterday(at),
    )
}

// The trip that it stands for: matched by its key, its route and its first departure.
pub fn sailing_trip(lent: &Lent, t: Tables) -> Option<usize>
    requires ready { Ready lent.now.bytes.now lent.now.words.now (named_of t) (plan_of t) }
    requires in_time { InTime (first_departure lent.now.bytes.now t.updates lent.now.times.now) }
    requires in_reach { InReach (local_at (first_departure lent.now.bytes.now t.updates lent.now.times.now) (offset_of lent.now.times.now t.sailing)) }
    ensures { result ≡ sailing_trip lent.now.bytes.now lent.now.words.now lent.now.times.now t }
{
    let updates = t.updates;
    trip_from(lent, t, first_departure(lent, updates))
}
