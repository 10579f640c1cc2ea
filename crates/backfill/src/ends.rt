// The first and the last sample of a trip's rows: those that have a distance and whose stop has a position.
ghost use Rattle.std.specs.Prelude.{◌≡◌, length};
ghost use Rattle.trip_rows.specs.Rows.{row_position};
ghost use Rattle.trip_vertices.specs.Vertices.{positions_from};
ghost use Rattle.row_distances.specs.Rows.{rows_of};
ghost use Rattle.backfill.specs.Samples.{added_end, next_ends, ends_of, samples_in};

use calibration::Sample;
use ids::Lent;
use lengths::Point;
use row_distances::Distance;
use tables::{StopTimes, Stops};
use trip_rows::row_position;

// Three cases, each with an answer of its own: one sample alone tells no unit.
#[derive(Clone, Copy)]
pub enum Ends {
    Nothing,
    One(Sample),
    Both(Sample, Sample),
}

// With one more sample.
fn add(ends: Ends, s: Sample) -> Ends
    ensures { result ≡ added_end ends s }
{
    match ends {
        Ends::Nothing => Ends::One(s),
        Ends::One(first) => Ends::Both(first, s),
        Ends::Both(first, _) => Ends::Both(first, s),
    }
}

// With one more row.
#[tactic(auto, unfolding(crate::specs::Samples::next_ends))]
fn pass(ends: Ends, stop: Option<Point>, row: Distance) -> Ends
    ensures { result ≡ next_ends ends stop row }
{
    let Some(point) = stop else {
        return ends;
    };
    if row.measured == 0 {
        return ends;
    }
    add(
        ends,
        Sample {
            at: point,
            dist: std::num::f32_to_f64_with_nan(row.dist),
        },
    )
}

// Of n rows of the stop times from `first` on.
pub(crate) fn ends_of(
    lent: &Lent,
    stops: Stops,
    calls: StopTimes,
    first: u32,
    n: u32,
    dist: &[f32],
    measured: &[u8],
) -> Ends
    requires n_value { n ≡ length dist.now }
    requires n_value_2 { n ≡ length measured.now }
    ensures { result ≡ ends_of (samples_in (positions_from (row_position lent.now.bytes.now lent.now.words.now lent.now.reals.now stops calls) first n) (rows_of dist.now measured.now)) }
{
    let from = first as usize;
    let mut ends = Ends::Nothing;
    for k in 0..n as usize {
        let row = Distance {
            dist: dist[k],
            measured: measured[k],
        };
        ends = pass(ends, row_position(lent, stops, calls, from + k), row);
    }
    ends
}
