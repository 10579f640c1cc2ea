// Every way of finding a trip, in its turn.
ghost use Rattle.std.specs.Prelude.{◌≡◌};
ghost use Rattle.trip_fits.specs.Plans.{Planned};
ghost use Rattle.trip_times.specs.Line.{ShortTokens};
ghost use Rattle.matching.specs.Matching.{timed_trip, match_of, Ready};

use alias_keys::TripIds;
use departure_fits::Count;
use ids::Lent;
use named_trips::by_id;
use tables::{Aliases, IdRows};
use trip_fits::{Asked, Plan, Timetable};
use trip_tails::by_tail;
use trip_times::by_token;

// What a trip is found in by its id.
#[derive(Clone, Copy)]
pub struct Named {
    pub tripkeys: IdRows,
    pub aliases: Aliases,
}

// By the line, of the route or else of the journey, and the first departure, if there is one.
fn by_time<'a>(
    timetable: &Timetable,
    base: &'a [u8],
    route: &'a [u8],
    departs: bool,
    asked: Asked,
) -> Option<usize>
    requires planned { Planned timetable.now.lent.bytes.now timetable.now.lent.words.now timetable.now.plan }
    requires short_tokens { ShortTokens timetable.now.lent.bytes.now timetable.now.lent.words.now timetable.now.plan }
    ensures { result ≡ timed_trip timetable.now.lent.bytes.now timetable.now.lent.words.now timetable.now.plan base.now route.now departs asked.today asked.yesterday }
{
    let token = tokens::token_of(route, base);
    if !departs {
        return None;
    }
    if token.len() == 0 {
        return None;
    }
    by_token(timetable, token, asked)
}

// The trip that a base key stands for: as an id, by its aliases, by an id made of its parts, by line and time, by its tail. The moment of
// the first departure is given as a count of seconds in its own service day and in the one before.
#[tactic(auto, unfolding(crate::specs::Matching::match_of))]
pub fn resolve<'a>(
    lent: &Lent,
    n: Named,
    p: Plan,
    base: &'a [u8],
    route: &'a [u8],
    departs: bool,
    today: Count,
    yesterday: Count,
) -> Option<usize>
    requires { Ready lent.now.bytes.now lent.now.words.now n p }
    ensures { result ≡ match_of lent.now.bytes.now lent.now.words.now n p base.now route.now departs today yesterday }
{
    let trips = TripIds {
        lent: *lent,
        tripkeys: n.tripkeys,
        aliases: n.aliases,
    };
    if let Some(trip) = by_id(&trips, base) {
        return Some(trip);
    }
    let timetable = Timetable {
        lent: *lent,
        plan: p,
    };
    let asked = Asked { today, yesterday };
    if let Some(trip) = by_time(&timetable, base, route, departs, asked) {
        return Some(trip);
    }
    by_tail(lent, n.tripkeys, base)
}
