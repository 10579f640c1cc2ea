// Numbers and moments out of bounds, in rows that have a value.
ghost use Rattle.std.specs.Prelude.{◌≡◌};
ghost use Rattle.column_faults.specs.Faulty.{too_large, out_of_time};

use ids::{Lent, Span};
use tables::{Mark, cut};

// Whether a number is at least so large.
pub fn too_large(lent: &Lent, s: Span, m: Mark, n: u64) -> bool
    ensures { result ≡ too_large lent.now.bytes.now lent.now.words.now s m n }
{
    columns::reaches(cut(lent.words, s), cut(lent.bytes, m.flags), m.all, n)
}

// Whether a moment is before 1970 or after 2099.
pub fn out_of_time(lent: &Lent, s: Span, m: Mark) -> bool
    ensures { result ≡ out_of_time lent.now.bytes.now lent.now.times.now s m }
{
    columns::outside(
        cut(lent.times, s),
        cut(lent.bytes, m.flags),
        m.all,
        0,
        4102444799,
    )
}
