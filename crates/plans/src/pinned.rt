// Without a call: at the best stop, if it can be placed. The Rust's `pin_at_best_stop`.
ghost use Rattle.std.specs.Prelude.{◌≡◌};
ghost use Rattle.calls.specs.Calls.{Ready, reported_of};
ghost use Rattle.best_rows.specs.Serving.{best_row};
ghost use Rattle.plans.specs.Plan.{pin_of, pin_at};
ghost use Rattle.voyages.specs.Outcome.{at_pin};

use best_rows::best_row;
use calls::{Reported, update_stop};
use ids::{Lent, cell};
use paths::Status;
use stop_rows::Lookup;
use tables::Tables;
use trip_rows::stop_point;
use voyages::{Placed, at_stop};

// What is reported of the sailing, and the tables that its stops are looked up in.
pub fn reported(t: Tables) -> Reported
    ensures { result ≡ reported_of t }
{
    let stops = t.stops;
    let stopkeys = t.stopkeys;
    let trips = t.trips;
    let tripkeys = t.tripkeys;
    let times = t.times;
    let updates = t.updates;
    let sailing = t.sailing;
    let lookup = Lookup {
        stops,
        stopkeys,
        trips,
        tripkeys,
        times,
    };
    Reported {
        lookup,
        updates,
        sailing,
    }
}

// At the stop of a row of the updates, if it is found.
fn at_row(lent: &Lent, t: Tables, row: usize, stop: Option<usize>) -> Option<Placed>
    ensures { result ≡ at_pin (pin_of lent.now.words.now lent.now.reals.now t row stop) }
{
    let Some(stop) = stop else {
        return None;
    };
    let s = t.stops;
    let sequences = t.updates.sequence;
    Some(at_stop(
        1,
        stop_point(lent.reals, s, stop),
        Status::InTransitTo,
        stop,
        cell(lent.words, sequences, row),
    ))
}

// At the best stop's, if there is one and it can be placed.
pub fn pin(lent: &Lent, t: Tables) -> Option<Placed>
    requires { Ready lent.now.bytes.now lent.now.words.now (reported_of t) }
    ensures { result ≡ at_pin (pin_at lent.now.bytes.now lent.now.words.now lent.now.reals.now t (best_row lent.now.bytes.now t.updates lent.now.words.now)) }
{
    let updates = t.updates;
    let Some(row) = best_row(lent, updates) else {
        return None;
    };
    at_row(lent, t, row, update_stop(lent, reported(t), row))
}
