// The trips of the lent tables, in table order. A row that two trips share is filled when the second is come to.
ghost use Rattle.std.specs.Prelude.{◌≡◌, ◌-◌, ◌≤◌, length, take};
ghost use Rattle.refusals.specs.Answer.{answer_of};
ghost use Rattle.tables.specs.Pools.{pools_of};
ghost use Rattle.row_distances.specs.Rows.{rows_of, dists_in, marks_in};
ghost use Rattle.filled_trips.specs.Tables.{after_trips};
ghost use Rattle.one_trip.specs.One.{one_of};
ghost use Rattle.trip_backfill.specs.Answers.{filled_of, filled_dists, filled_marks, room_answer, room_dists, room_marks};

use filled_trips::backfill_in;
use geometry_checks::check_geometry;
use ids::Lent;
use one_trip::end_of;
use refusals::Refusal;
use tables::{Bounds, Tables, cut};

// How many rows two columns have.
#[tactic(auto, using(row_distances::proofs::Columns::rows_least))]
fn count(dist: &[f32], measured: &[u8]) -> usize
    ensures { result ≡ length (rows_of dist.now measured.now) }
{
    dist.len().min(measured.len())
}

// The trips from a to before e.
fn backfill_each(lent: &Lent, t: Tables, a: usize, e: usize, dist: &mut [f32], measured: &mut [u8])
    requires { length dist.old ≡ length measured.old }
    ensures dist_after { dist.new ≡ dists_in (after_trips lent.now.bytes.now lent.now.words.now lent.now.reals.now t a (e - a) (rows_of dist.old measured.old)) }
    ensures measured_after { measured.new ≡ marks_in (after_trips lent.now.bytes.now lent.now.words.now lent.now.reals.now t a (e - a) (rows_of dist.old measured.old)) }
{
    for k in a..e {
        backfill_in(lent, t, k, dist, measured);
    }
}

// As many rows as there is room for; row by row, since a copy of a slice calls the C library's memmove.
fn copy<T: Copy>(from: &[T], to: &mut [T])
    requires { length to.old ≤ length from.now }
    ensures { to.new ≡ take (length to.old) from.now }
{
    for k in 0..to.len() {
        to[k] = from[k];
    }
}

// The same, into outputs of as many rows as the columns have.
fn lay(
    lent: &Lent,
    t: Tables,
    a: usize,
    e: usize,
    column: &[f32],
    flags: &[u8],
    dist: &mut [f32],
    measured: &mut [u8],
)
    requires dist_len { length dist.old ≡ length (rows_of column.now flags.now) }
    requires measured_len { length measured.old ≡ length (rows_of column.now flags.now) }
    ensures dist_after { dist.new ≡ dists_in (after_trips lent.now.bytes.now lent.now.words.now lent.now.reals.now t a (e - a) (rows_of column.now flags.now)) }
    ensures measured_after { measured.new ≡ marks_in (after_trips lent.now.bytes.now lent.now.words.now lent.now.reals.now t a (e - a) (rows_of column.now flags.now)) }
{
    copy(column, dist);
    copy(flags, measured);
    backfill_each(lent, t, a, e, dist, measured);
}

// The same, into the outputs' first rows, if they have room; and how many rows there are.
fn write(
    lent: &Lent,
    t: Tables,
    a: usize,
    e: usize,
    column: &[f32],
    flags: &[u8],
    dist: &mut [f32],
    measured: &mut [u8],
) -> Result<usize, Refusal>
    ensures result_value { answer_of result ≡ room_answer (rows_of column.now flags.now) dist.old measured.old }
    ensures dist_after { dist.new ≡ room_dists (after_trips lent.now.bytes.now lent.now.words.now lent.now.reals.now t a (e - a) (rows_of column.now flags.now)) dist.old measured.old }
    ensures measured_after { measured.new ≡ room_marks (after_trips lent.now.bytes.now lent.now.words.now lent.now.reals.now t a (e - a) (rows_of column.now flags.now)) dist.old measured.old }
{
    let n = count(column, flags);
    if dist.len() < n {
        return Err(Refusal::Room);
    }
    if measured.len() < n {
        return Err(Refusal::Room);
    }
    lay(
        lent,
        t,
        a,
        e,
        column,
        flags,
        &mut dist[..n],
        &mut measured[..n],
    );
    Ok(n)
}

// The operation, for the trips from a to before e.
fn backfill_between(
    lent: &Lent,
    t: Tables,
    a: usize,
    e: usize,
    dist: &mut [f32],
    measured: &mut [u8],
) -> Result<usize, Refusal>
    ensures result_value { answer_of result ≡ filled_of (pools_of lent.now) t dist.old measured.old }
    ensures dist_after { dist.new ≡ filled_dists (pools_of lent.now) t a (e - a) dist.old measured.old }
    ensures measured_after { measured.new ≡ filled_marks (pools_of lent.now) t a (e - a) dist.old measured.old }
{
    check_geometry(lent, Bounds::chart(), t)?;
    let column = cut(lent.dists, t.times.dist);
    let flags = cut(lent.bytes, t.times.measured);
    write(lent, t, a, e, column, flags, dist, measured)
}

// Writes the distance of each stop time, and a byte that is not zero where it has one, after backfill of all trips in table order; and says how many
// stop times there are.
pub fn backfill_trips(
    lent: &Lent,
    t: Tables,
    dist: &mut [f32],
    measured: &mut [u8],
) -> Result<usize, Refusal>
    ensures result_value { answer_of result ≡ filled_of (pools_of lent.now) t dist.old measured.old }
    ensures dist_after { dist.new ≡ filled_dists (pools_of lent.now) t 0 t.trips.first.n dist.old measured.old }
    ensures measured_after { measured.new ≡ filled_marks (pools_of lent.now) t 0 t.trips.first.n dist.old measured.old }
{
    let n = t.trips.first.n as usize;
    backfill_between(lent, t, 0, n, dist, measured)
}

// The same, after backfill of one trip alone.
pub fn backfill_trip(
    lent: &Lent,
    t: Tables,
    trip: usize,
    dist: &mut [f32],
    measured: &mut [u8],
) -> Result<usize, Refusal>
    ensures result_value { answer_of result ≡ filled_of (pools_of lent.now) t dist.old measured.old }
    ensures dist_after { dist.new ≡ filled_dists (pools_of lent.now) t trip (one_of trip t.trips.first.n) dist.old measured.old }
    ensures measured_after { measured.new ≡ filled_marks (pools_of lent.now) t trip (one_of trip t.trips.first.n) dist.old measured.old }
{
    let e = end_of(trip, t.trips.first.n as usize);
    backfill_between(lent, t, trip, e, dist, measured)
}
