// At a call. Calls are lent as columns: their rows in the updates, and their stops.
ghost use Rattle.std.specs.Prelude.{◌≡◌, suc, ◌<◌};
ghost use Rattle.paths.specs.declared.status.Status.TheVariants.{InTransitTo};
ghost use Rattle.voyages.specs.Record.{at_stop};
ghost use Rattle.call_places.specs.Places.{stop_of_call, sequence_of_call, point_of_call, call_end};

use ids::{Lent, cell, word};
use paths::{End, Status};
use tables::Tables;
use trip_rows::stop_point;
use voyages::{Placed, at_stop};

// Call k as an end of a leg.
pub fn call_end(lent: &Lent, t: Tables, rows: &[u32], stops: &[u32], k: usize) -> End
    ensures { result ≡ call_end lent.now.words.now lent.now.reals.now t rows.now stops.now k }
{
    let s = t.stops;
    let sequences = t.updates.sequence;
    let row = word(rows, k) as usize;
    let stop = word(stops, k) as usize;
    End {
        sequence: cell(lent.words, sequences, row),
        at: stop_point(lent.reals, s, stop),
    }
}

// At call k, counted from 0.
pub fn at_call(
    lent: &Lent,
    t: Tables,
    rows: &[u32],
    stops: &[u32],
    k: usize,
    status: Status,
) -> Placed
    requires { k < 4294967295 }
    ensures { result ≡ at_stop (suc k) (point_of_call lent.now.words.now lent.now.reals.now t rows.now stops.now k) status (stop_of_call lent.now.words.now lent.now.reals.now t rows.now stops.now k) (sequence_of_call lent.now.words.now lent.now.reals.now t rows.now stops.now k) }
{
    let end = call_end(lent, t, rows, stops, k);
    let at = end.at;
    at_stop(
        k as u32 + 1,
        at,
        status,
        word(stops, k) as usize,
        end.sequence,
    )
}

// At the first call, which she has departed from: in transit.
pub fn departed(lent: &Lent, t: Tables, rows: &[u32], stops: &[u32]) -> Placed
    ensures { result ≡ at_stop 1 (point_of_call lent.now.words.now lent.now.reals.now t rows.now stops.now 0) InTransitTo (stop_of_call lent.now.words.now lent.now.reals.now t rows.now stops.now 0) (sequence_of_call lent.now.words.now lent.now.reals.now t rows.now stops.now 0) }
{
    at_call(lent, t, rows, stops, 0, Status::InTransitTo)
}
