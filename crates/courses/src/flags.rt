// Flags of a column, by their row.
ghost use Rattle.std.specs.Prelude.{◌≡◌};
ghost use Rattle.courses.specs.Course.{is_flagged};

use ids::Span;

// Whether row k of a column of flags is set.
#[tactic(auto, unfolding(crate::specs::Course::is_flagged))]
pub fn flagged(bytes: &[u8], span: Span, k: usize) -> bool
    ensures { result ≡ is_flagged bytes.now span k }
{
    columns::bit(bytes, span, k) != 0
}
