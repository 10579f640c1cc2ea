// On a leg: from an end to another, along the path of the static trip.
ghost use Rattle.std.specs.Prelude.{◌≡◌, ◌≤◌};
ghost use Rattle.voyages.specs.Outcome.{walk_leg};
ghost use Rattle.leg_paths.specs.Leg.{leg_count};
ghost use Rattle.plans.specs.Plan.{course_of, leg_between};

use courses::Course;
use ids::Lent;
use leg_paths::path_of;
use legs::Walked;
use paths::End;
use tables::Tables;
use walks::walk;

// The tables that a trip's course is read from.
pub(crate) fn course(t: Tables) -> Course
    ensures { result ≡ course_of t }
{
    let trips = t.trips;
    let times = t.times;
    let stops = t.stops;
    let shapes = t.shapes;
    let points = t.points;
    Course {
        trips,
        times,
        stops,
        shapes,
        points,
    }
}

// Walked to a fraction of it. Legs are counted from 1.
pub(crate) fn walk_leg(
    lent: &Lent,
    t: Tables,
    leg: u32,
    trip: Option<usize>,
    from: End,
    to: End,
    frac: f64,
) -> Walked
    requires { leg_count lent.now.words.now (course_of t) trip ≤ 1000000 }
    ensures { result ≡ walk_leg leg (leg_between lent.now.bytes.now lent.now.words.now lent.now.reals.now lent.now.dists.now t trip from to) frac }
{
    let c = course(t);
    let path = path_of(lent, c, trip, from, to);
    walk(lent, c, leg, trip, from, to, path, frac)
}
