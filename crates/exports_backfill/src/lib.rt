// The C names under which tools/oracle calls backfill. Each says no more than the function that it calls: 0, or the refusal's number.
#![tactic(auto)]

ghost use Rattle.std.specs.Prelude.{◌≡◌};
ghost use Rattle.refusals.specs.Answer.{number_of};
ghost use Rattle.tables.specs.Pools.{pools};
ghost use Rattle.one_trip.specs.One.{one_of};
ghost use Rattle.trip_backfill.specs.Answers.{filled_of, filled_dists, filled_marks};

use ids::Lent;
use refusals::number_or_zero;
use tables::Tables;
use trip_backfill::{backfill_trip, backfill_trips};

#[unsafe(no_mangle)]
pub extern "C" fn zebumorn_backfill_trips(
    bytes: &[u8],
    words: &[u32],
    times: &[i64],
    reals: &[f64],
    dists: &[f32],
    t: Tables,
    dist: &mut [f32],
    measured: &mut [u8],
) -> u32
    ensures value { result ≡ number_of (filled_of (pools bytes.now words.now times.now reals.now dists.now) t dist.old measured.old) }
    ensures dist_after { dist.new ≡ filled_dists (pools bytes.now words.now times.now reals.now dists.now) t 0 t.trips.first.n dist.old measured.old }
    ensures measured_after { measured.new ≡ filled_marks (pools bytes.now words.now times.now reals.now dists.now) t 0 t.trips.first.n dist.old measured.old }
{
    let lent = Lent {
        bytes,
        words,
        times,
        reals,
        dists,
    };
    number_or_zero(&backfill_trips(&lent, t, dist, measured))
}

#[unsafe(no_mangle)]
pub extern "C" fn zebumorn_backfill_trip(
    bytes: &[u8],
    words: &[u32],
    times: &[i64],
    reals: &[f64],
    dists: &[f32],
    t: Tables,
    trip: usize,
    dist: &mut [f32],
    measured: &mut [u8],
) -> u32
    ensures value { result ≡ number_of (filled_of (pools bytes.now words.now times.now reals.now dists.now) t dist.old measured.old) }
    ensures dist_after { dist.new ≡ filled_dists (pools bytes.now words.now times.now reals.now dists.now) t trip (one_of trip t.trips.first.n) dist.old measured.old }
    ensures measured_after { measured.new ≡ filled_marks (pools bytes.now words.now times.now reals.now dists.now) t trip (one_of trip t.trips.first.n) dist.old measured.old }
{
    let lent = Lent {
        bytes,
        words,
        times,
        reals,
        dists,
    };
    number_or_zero(&backfill_trip(&lent, t, trip, dist, measured))
}
