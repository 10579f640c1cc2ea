// Whether a service runs on a date.
ghost use Rattle.std.specs.Prelude.{◌≡◌};
ghost use Rattle.refusals.specs.Answer.{answer_of};
ghost use Rattle.tables.specs.Pools.{pools_of};
ghost use Rattle.services.specs.Runs.{Calendared};
ghost use Rattle.service_days.specs.Services.{service_runs, running_of};

use checks::check_service;
use ids::Lent;
use refusals::Refusal;
use services::Calendar;
use tables::{Bounds, Service, Tables};

// Whether it runs, of tables that are not refused.
fn is_running(lent: &Lent, t: Tables, s: Service) -> bool
    requires { Calendared lent.now.bytes.now lent.now.words.now t.calendars t.ranges t.exceptions }
    ensures { result ≡ service_runs lent.now.bytes.now lent.now.words.now t s }
{
    let day = days::ordinal_of(ids::cell(lent.words, s.date, 0)) as u32;
    let calendar = Calendar {
        lent: *lent,
        calendars: t.calendars,
        ranges: t.ranges,
        exceptions: t.exceptions,
    };
    calendar.runs(ids::id(lent, s.feed, 0), ids::id(lent, s.service, 0), day)
}

/// Whether the service runs on the date, or the first refusal that applies.
pub fn service_runs(lent: &Lent, t: Tables, s: Service) -> Result<bool, Refusal>
    ensures { answer_of result ≡ running_of (pools_of lent.now) t s }
{
    check_service(lent, Bounds::chart(), t, s)?;
    Ok(is_running(lent, t, s))
}
