// Distances of a column, by their row.
ghost use Rattle.std.specs.Prelude.{◌≡◌};
ghost use Rattle.trip_rows.specs.Rows.{real_of};

use ids::Span;
use trip_rows::row_or;

// Row k of a column of distances, or NaN past the pool's end.
pub fn dist(dists: &[f32], span: Span, k: usize) -> f64
    ensures { result ≡ real_of dists.now span k }
{
    std::num::f32_to_f64_with_nan(row_or(dists, span, k, f32::NAN))
}
