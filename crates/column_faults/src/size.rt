// Whether a column is not so many rows of its pool.
ghost use Rattle.std.specs.Prelude.{◌≡◌, ◌||◌};
ghost use Rattle.column_faults.specs.Faulty.{ill_sized};

use ids::{IdColumn, Span};

// Whether a column is not n rows of a pool of len.
pub fn ill_sized(len: usize, span: Span, n: u32) -> bool
    ensures { result ≡ ill_sized len span n }
{
    len < span.at as usize + span.n as usize || span.n != n
}

// The same of either column of ids.
pub fn ids_ill_sized(len: usize, ids: IdColumn, n: u32) -> bool
    ensures { result ≡ (ill_sized len ids.starts n || ill_sized len ids.lens n) }
{
    ill_sized(len, ids.starts, n) || ill_sized(len, ids.lens, n)
}
