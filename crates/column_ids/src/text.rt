// Columns of ids, and texts: whether some byte is not printable, or some id empty.
ghost use Rattle.std.specs.Prelude.{◌≡◌, min, length};
ghost use Rattle.columns.specs.Rows.{among, some};
ghost use Rattle.column_ids.specs.Text.{bad_id, bad_id_at, bad_text};

use columns::some_counted;
use ids::part;

// Whether some byte is outside 32..126.
pub fn bad_text(s: &[u8]) -> bool
    ensures { result ≡ bad_text s.now }
{
    s.iter().any(|byte| *byte < 32 || 126 < *byte)
}

// Whether an id has such a byte, or is empty where empty ids are not allowed.
#[tactic(auto, unfolding(crate::specs::Text::bad_id))]
fn bad_id(empty: bool, s: &[u8]) -> bool
    ensures { result ≡ bad_id empty s.now }
{
    bad_text(s) || s.is_empty() && !empty
}

// Whether some row's id is bad. Row k's is lens[k] bytes from starts[k] on, cut where the bytes end.
pub fn bad_ids(
    bytes: &[u8],
    starts: &[u32],
    lens: &[u32],
    flags: &[u8],
    all: bool,
    empty: bool,
) -> bool
    ensures { result ≡ some (among all flags.now (bad_id_at bytes.now starts.now lens.now empty)) (min (length starts.now) (length lens.now)) }
{
    let rows = starts.len().min(lens.len());
    some_counted(rows, flags, all, |k| {
        bad_id(empty, part(bytes, starts[k] as usize, lens[k] as usize))
    })
}
