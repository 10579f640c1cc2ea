// Published: backfill of a trip's stop times that are lent as records, a mutable slice of structs. Only missing distances are written; every other
// field of every record is as it was. It ports `backfill_shape_dist_traveled` of the Rust's routing/geometry.rs for one trip, through the core of `backfill`
// on columns, which are lent too. What is refused is refused before anything is written.
#![tactic(auto)]

ghost use Rattle.std.specs.Prelude.{◌≡◌, ◌≤◌, length};
ghost use Rattle.filled_records.specs.Records.{core_d, core_k, laid_r, laid_a, laid_d, laid_k};
ghost use Rattle.filled_records.specs.Answers.{code_of, records_after, stops_after, dists_after, marks_after};

use backfill::backfill_rows;
use ids::{Lent, Span};
use lengths::Polyline;
use record_faults::Faults;
use record_refusals::{LentRecords, check_lent, verdict};
use stop_record::StopTime;
use tables::{StopTimes, cut};

// How many stops there are.
fn stop_count(l: LentRecords) -> u32
    ensures { result ≡ l.stops.lat.n }
{
    l.stops.lat.n
}

// The core on the first n rows of the columns.
fn core(lent: &Lent, at: &[u32], l: LentRecords, n: usize, dists: &mut [f32], known: &mut [u8])
    requires { (n ≤ 1000000) × (n ≤ length dists.old) × (n ≤ length known.old) }
    ensures { (dists.new ≡ core_d lent.now.bytes.now at.now lent.now.reals.now l n dists.old known.old)
        × (known.new ≡ core_k lent.now.bytes.now at.now lent.now.reals.now l n dists.old known.old) }
{
    let stops = l.stops;
    let line = l.line;
    let lats = line.lat;
    let lons = line.lon;
    let rows = n as u32;
    let unread = Span { at: 0, n: 0 };
    let calls = StopTimes {
        sequence: unread,
        stop: unread,
        arrival: unread,
        departure: unread,
        dist: unread,
        measured: unread,
    };
    backfill_rows(
        &Lent {
            bytes: lent.bytes,
            words: at,
            times: &[],
            reals: lent.reals,
            dists: &[],
        },
        stops,
        calls,
        Polyline {
            lat: cut(lent.reals, lats),
            lon: cut(lent.reals, lons),
        },
        0,
        rows,
        &mut dists[..n],
        &mut known[..n],
    );
}

// The records' columns, the core on them, and its answers into the records.
fn write_records(
    r: &mut [StopTime],
    lent: &Lent,
    l: LentRecords,
    at: &mut [u32],
    dists: &mut [f32],
    known: &mut [u8],
)
    requires { (length r.old ≤ 1000000) × (length r.old ≤ length at.old) × (length r.old ≤ length dists.old) × (length r.old ≤ length known.old) }
    ensures { (r.new ≡ laid_r r.old lent.now.bytes.now lent.now.reals.now l at.old dists.old known.old)
        × (at.new ≡ laid_a r.old lent.now.bytes.now lent.now.reals.now l at.old dists.old known.old)
        × (dists.new ≡ laid_d r.old lent.now.bytes.now lent.now.reals.now l at.old dists.old known.old)
        × (known.new ≡ laid_k r.old lent.now.bytes.now lent.now.reals.now l at.old dists.old known.old) }
{
    records::stops_of(r, at);
    records::columns(r, dists, known);
    core(lent, at, l, r.len(), dists, known);
    records::fill(r, dists, known);
}

// Writes the missing distances of a trip's records, where they can be told. `at`, `dists` and `known` are columns to work in, of a row for each record
// or more: they hold the records' stops, distances and flags afterwards, and past those rows what they held.
#[unsafe(no_mangle)]
pub extern "C" fn zebumorn_backfill_records(
    r: &mut [StopTime],
    bytes: &[u8],
    words: &[u32],
    reals: &[f64],
    l: LentRecords,
    at: &mut [u32],
    dists: &mut [f32],
    known: &mut [u8],
) -> u32
    ensures { (result ≡ code_of r.old bytes.now words.now reals.now l at.old dists.old known.old)
        × (r.new ≡ records_after r.old bytes.now words.now reals.now l at.old dists.old known.old)
        × (at.new ≡ stops_after r.old bytes.now words.now reals.now l at.old dists.old known.old)
        × (dists.new ≡ dists_after r.old bytes.now words.now reals.now l at.old dists.old known.old)
        × (known.new ≡ marks_after r.old bytes.now words.now reals.now l at.old dists.old known.old) }
{
    let m = stop_count(l);
    let c = record_faults::scan(
        r,
        m,
        Faults {
            outside: 0,
            infinite: 0,
        },
    );
    let lent = check_lent(
        &Lent {
            bytes,
            words,
            times: &[],
            reals,
            dists: &[],
        },
        l,
    );
    let code = verdict(c, lent, r.len(), at.len(), dists.len(), known.len());
    if code != 0 {
        return code;
    }
    write_records(
        r,
        &Lent {
            bytes,
            words: &[],
            times: &[],
            reals,
            dists: &[],
        },
        l,
        at,
        dists,
        known,
    );
    0
}
