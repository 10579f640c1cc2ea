// The operation.
ghost use Rattle.std.specs.Prelude.{◌≡◌};
ghost use Rattle.refusals.specs.Answer.{answer_of};
ghost use Rattle.tables.specs.Pools.{pools_of};
ghost use Rattle.trip_projection.specs.Answers.{projected_of, output_of};

use geometry_checks::check_leg;
use ids::Lent;
use refusals::Refusal;
use tables::{Bounds, LegAsked, Tables};
use trip_ids::by_key;
use trip_vertices::write;

// Writes the vertex of each stop time of the trip asked of, 4,294,967,295 for a stop without a position, and says how many; a trip without a shape has a
// line of no vertices, on which every vertex is 0.
pub fn project_trip(lent: &Lent, t: Tables, l: LegAsked, out: &mut [u32]) -> Result<usize, Refusal>
    ensures result_value { answer_of result ≡ projected_of (pools_of lent.now) t l out.old }
    ensures out_after { out.new ≡ output_of (pools_of lent.now) t l out.old }
{
    check_leg(lent, Bounds::chart(), t, l)?;
    let asked = ids::id(lent, l.trip, 0);
    let found = by_key(lent, t.tripkeys, asked);
    write(lent, t, found, out)
}
