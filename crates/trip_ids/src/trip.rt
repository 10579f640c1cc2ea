// A trip by its id.
ghost use Rattle.std.specs.Prelude.{◌≡◌};
ghost use Rattle.ids.specs.Pool.{id_of};
ghost use Rattle.ids.specs.Rows.{GoodIds};
ghost use Rattle.trip_ids.specs.Trips.{trip_at, trip_of};

use ids::{Lent, Span};
use tables::IdRows;

// The trip of the row found.
pub fn trip_at(words: &[u32], row: Span, place: Option<usize>) -> Option<usize>
    ensures { result ≡ trip_at words.now row place }
{
    match place {
        Some(k) => Some(ids::cell(words, row, k) as usize),
        None => None,
    }
}

// The trip whose id is the key.
pub fn by_key(lent: &Lent, tripkeys: IdRows, key: &[u8]) -> Option<usize>
    requires { GoodIds (id_of lent.now.bytes.now lent.now.words.now tripkeys.id) tripkeys.id.starts.n }
    ensures { result ≡ trip_of lent.now.bytes.now lent.now.words.now tripkeys key.now }
{
    let id = tripkeys.id;
    let row = tripkeys.row;
    trip_at(lent.words, row, ids::find(lent, id, key))
}
