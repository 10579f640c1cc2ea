// The estimate.
ghost use Rattle.std.specs.Prelude.{◌≡◌};
ghost use Rattle.refusals.specs.Answer.{answer_of};
ghost use Rattle.tables.specs.Pools.{pools, pools_of};
ghost use Rattle.tables.specs.Bounds.{chart_bounds};
ghost use Rattle.verdicts.specs.Refuse.{refusal_of};
ghost use Rattle.checks.specs.Operations.{estimate_causes};
ghost use Rattle.calls.specs.Calls.{reported_of, call_rows, call_stops};
ghost use Rattle.sailing_rows.specs.Rows.{clock_of};
ghost use Rattle.voyages.specs.Outcome.{outcome_at};
ghost use Rattle.plans.specs.Plan.{voyage_of};
ghost use Rattle.estimate.specs.Answers.{estimate_of, called_of};

use calls::collect;
use checks::check_estimate;
use ids::Lent;
use plans::{at_turn, pin, reported};
use refusals::Refusal;
use sailing_rows::{clock, is_cancelled};
use tables::{Bounds, Tables};
use update_times::{fill_arrivals, fill_departures};
use voyages::Placed;

// With these calls, one or more.
fn called(lent: &Lent, t: Tables, rows: &[u32], stops: &[u32]) -> Placed
    requires t_value { refusal_of (pools_of lent.now) (estimate_causes chart_bounds t) ≡ 0 }
    requires rows_value { rows.now ≡ call_rows lent.now.bytes.now lent.now.words.now (reported_of t) }
    requires stops_value { stops.now ≡ call_stops lent.now.bytes.now lent.now.words.now (reported_of t) }
    ensures { result ≡ called_of (pools_of lent.now) t }
{
    let n = rows.len();
    let s = t.sailing;
    let updates = t.updates;
    let mut arrivals = [0u64; 256];
    let mut departures = [0u64; 256];
    fill_arrivals(lent, updates, rows, &mut arrivals);
    fill_departures(lent, updates, rows, &mut departures);
    at_turn(
        lent,
        t,
        rows,
        stops,
        &arrivals[..n],
        &departures[..n],
        clock(lent.times, s),
    )
}

// The outcome of tables that are not refused.
fn outcome(lent: &Lent, t: Tables) -> Option<Placed>
    requires { refusal_of (pools_of lent.now) (estimate_causes chart_bounds t) ≡ 0 }
    ensures { result ≡ outcome_at (voyage_of (pools_of lent.now) t) (clock_of lent.now.times.now t.sailing) }
{
    let s = t.sailing;
    if is_cancelled(lent.bytes, s) {
        return None;
    }
    let mut rows = [0u32; 256];
    let mut stops = [0u32; 256];
    let n = collect(lent, reported(t), &mut rows, &mut stops);
    if n == 0 {
        return pin(lent, t);
    }
    Some(called(lent, t, &rows[..n], &stops[..n]))
}

// The estimate of the lent tables, or none in silence; else the first refusal that applies.
pub fn estimate(lent: &Lent, t: Tables) -> Result<Option<Placed>, Refusal>
    ensures { answer_of result ≡ estimate_of (pools_of lent.now) t }
{
    check_estimate(lent, Bounds::chart(), t)?;
    let answer = outcome(lent, t);
    Ok(answer)
}
