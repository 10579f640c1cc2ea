// A trip's stops.
ghost use Rattle.std.specs.Prelude.{◌≡◌};
ghost use Rattle.tables.specs.Pools.{pools};
ghost use Rattle.trip_projection.specs.Answers.{projected_of, output_of};
ghost use Rattle.line_told.specs.Told.{rows_told};

use ids::{IdColumn, Lent};
use line_told::{RowsTold, tell_rows};
use tables::{LegAsked, Tables};
use trip_projection::project_trip;

// The trip is the one whose id is row 0 of the column.
#[unsafe(no_mangle)]
pub extern "C" fn zebumorn_project_trip(
    bytes: &[u8],
    words: &[u32],
    times: &[i64],
    reals: &[f64],
    dists: &[f32],
    t: Tables,
    trip: IdColumn,
    out: &mut [u32],
) -> RowsTold
    ensures value { result ≡ rows_told (projected_of (pools bytes.now words.now times.now reals.now dists.now) t (record { trip = trip }) out.old) }
    ensures out_after { out.new ≡ output_of (pools bytes.now words.now times.now reals.now dists.now) t (record { trip = trip }) out.old }
{
    let lent = Lent {
        bytes,
        words,
        times,
        reals,
        dists,
    };
    let l = LegAsked { trip };
    tell_rows(project_trip(&lent, t, l, out))
}
