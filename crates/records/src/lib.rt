// A trip's stop times as records: a slice of structs. Its functions read the records where they lie, as columns, and write the distances that
// columns have an answer for. What is done with one record is in `stop_record`.
#![tactic(auto)]

ghost use Rattle.std.specs.Prelude.{◌≡◌, ◌<◌, ◌≤◌, length};
ghost use Rattle.records.specs.Records.{fill_row, stop_col, dist_col, known_col};
ghost use Rattle.records.specs.Rows.{each, map_to};

use stop_record::{StopTime, filled};

// Where a record has no distance and the columns have an answer for its row, it takes the answer. All else is as it was.
pub fn fill(r: &mut [StopTime], dists: &[f32], known: &[u8])
    requires { (length r.old ≤ length dists.now) × (length r.old ≤ length known.now) }
    ensures { r.new ≡ each (fill_row dists.now known.now) r.old }
{
    for (i, s) in r.iter_mut().enumerate() {
        *s = filled(*s, dists[i], known[i]);
    }
}

// The records' distances as columns: row j of the columns is record j's. Rows past the last record are as they were.
pub fn columns(r: &[StopTime], dists: &mut [f32], known: &mut [u8])
    requires { (length r.now ≤ length dists.old) × (length r.now ≤ length known.old) }
    ensures { (dists.new ≡ map_to (dist_col r.now) (length r.now) dists.old)
        × (known.new ≡ map_to (known_col r.now) (length r.now) known.old) }
{
    for (i, s) in r.iter().enumerate() {
        dists[i] = s.dist;
        known[i] = s.measured as u8;
    }
}

// Their stops.
pub fn stops_of(r: &[StopTime], at: &mut [u32])
    requires { length r.now ≤ length at.old }
    ensures { at.new ≡ map_to (stop_col r.now) (length r.now) at.old }
{
    for (i, s) in r.iter().enumerate() {
        at[i] = s.stop;
    }
}
