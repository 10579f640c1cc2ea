// The trip that a journey stands for.
ghost use Rattle.std.specs.Prelude.{◌≡◌};
ghost use Rattle.refusals.specs.Answer.{answer_of};
ghost use Rattle.tables.specs.Pools.{pools_of};
ghost use Rattle.matching.specs.Matching.{Ready};
ghost use Rattle.moments.specs.Moments.{InReach};
ghost use Rattle.asked_journey.specs.Journeys.{local_of};
ghost use Rattle.lent_plans.specs.Plans.{plan_of};
ghost use Rattle.timetable.specs.Timetable.{named_of, journey_trip};
ghost use Rattle.timetable.specs.Answers.{matched_of};

use asked_journey::{departs, local, route};
use checks::check_matching;
use ids::Lent;
use lent_plans::plan_of;
use matching::{Named, resolve};
use moments::{today, yesterday};
use refusals::Refusal;
use tables::{Bounds, Journey, Tables};

// The trip, of tables that are not refused.
fn trip_of(lent: &Lent, t: Tables, j: Journey) -> Option<usize>
    requires ready { Ready lent.now.bytes.now lent.now.words.now (named_of t) (plan_of t) }
    requires in_reach { InReach (local_of lent.now.bytes.now lent.now.times.now j) }
    ensures { result ≡ journey_trip lent.now.bytes.now lent.now.words.now lent.now.times.now t j }
{
    let named = Named {
        tripkeys: t.tripkeys,
        aliases: t.aliases,
    };
    let at = local(lent, j);
    resolve(
        lent,
        named,
        plan_of(t),
        ids::id(lent, j.key, 0),
        route(lent, j),
        departs(lent.bytes, j),
        today(at),
        yesterday(at),
    )
}

/// The trip that the journey stands for, or none, or the first refusal that applies.
pub fn match_trip(lent: &Lent, t: Tables, j: Journey) -> Result<Option<usize>, Refusal>
    ensures { answer_of result ≡ matched_of (pools_of lent.now) t j }
{
    check_matching(lent, Bounds::chart(), t, j)?;
    Ok(trip_of(lent, t, j))
}
