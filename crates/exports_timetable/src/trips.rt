// The trip of a journey, and whether a service runs.
ghost use Rattle.std.specs.Prelude.{◌≡◌};
ghost use Rattle.refusals.specs.Answer.{number_of};
ghost use Rattle.tables.specs.Pools.{pools};
ghost use Rattle.timetable.specs.Answers.{matched_of};
ghost use Rattle.service_days.specs.Services.{running_of};
ghost use Rattle.refusal_numbers.specs.Told.{row_or, runs_or};

use ids::Lent;
use refusal_numbers::{told_running, told_trip};
use service_days::service_runs;
use tables::{Journey, Service, Tables};
use timetable::match_trip;

#[unsafe(no_mangle)]
pub extern "C" fn zebumorn_match_trip(
    bytes: &[u8],
    words: &[u32],
    times: &[i64],
    reals: &[f64],
    dists: &[f32],
    t: Tables,
    j: Journey,
    out: &mut usize,
) -> u32
    ensures value { result ≡ number_of (matched_of (pools bytes.now words.now times.now reals.now dists.now) t j) }
    ensures out_after { out.new ≡ row_or out.old (matched_of (pools bytes.now words.now times.now reals.now dists.now) t j) }
{
    let lent = Lent {
        bytes,
        words,
        times,
        reals,
        dists,
    };
    told_trip(match_trip(&lent, t, j), out)
}

#[unsafe(no_mangle)]
pub extern "C" fn zebumorn_service_runs(
    bytes: &[u8],
    words: &[u32],
    times: &[i64],
    reals: &[f64],
    dists: &[f32],
    t: Tables,
    s: Service,
    out: &mut usize,
) -> u32
    ensures value { result ≡ number_of (running_of (pools bytes.now words.now times.now reals.now dists.now) t s) }
    ensures out_after { out.new ≡ runs_or out.old (running_of (pools bytes.now words.now times.now reals.now dists.now) t s) }
{
    let lent = Lent {
        bytes,
        words,
        times,
        reals,
        dists,
    };
    told_running(service_runs(&lent, t, s), out)
}
