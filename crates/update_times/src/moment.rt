// When calls arrive and depart.
ghost use Rattle.std.specs.Prelude.{◌≤◌, ◌≡◌, ◌++◌, map, length, drop};
ghost use Rattle.update_rows.specs.Updates.{moment_or};
ghost use Rattle.update_times.specs.Times.{arrival_of, departure_of};

use ids::{Lent, Span};
use tables::Updates;
use update_rows::moment_or;

// Writes a moment for each of the rows.
fn fill(lent: &Lent, has: Span, own: Span, other: Span, rows: &[u32], out: &mut [u64])
    requires { length rows.now ≤ length out.old }
    ensures { out.new ≡ map (moment_or lent.now.bytes.now lent.now.times.now has own other) rows.now ++ drop (length rows.now) out.old }
{
    for (k, row) in rows.iter().enumerate() {
        out[k] = moment_or(lent, has, own, other, *row as usize);
    }
}

// Writes when each of the rows arrives.
pub fn fill_arrivals(lent: &Lent, u: Updates, rows: &[u32], out: &mut [u64])
    requires { length rows.now ≤ length out.old }
    ensures { out.new ≡ map (arrival_of lent.now.bytes.now u lent.now.times.now) rows.now ++ drop (length rows.now) out.old }
{
    let arrives = u.arrives;
    let arrival = u.arrival;
    let departure = u.departure;
    fill(lent, arrives, arrival, departure, rows, out);
}

// Writes when each of the rows departs.
pub fn fill_departures(lent: &Lent, u: Updates, rows: &[u32], out: &mut [u64])
    requires { length rows.now ≤ length out.old }
    ensures { out.new ≡ map (departure_of lent.now.bytes.now u lent.now.times.now) rows.now ++ drop (length rows.now) out.old }
{
    let departs = u.departs;
    let departure = u.departure;
    let arrival = u.arrival;
    fill(lent, departs, departure, arrival, rows, out);
}
