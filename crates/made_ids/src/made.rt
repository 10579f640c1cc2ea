// A trip by an id that is made of parts of the ref.
ghost use Rattle.std.specs.Prelude.{◌≡◌};
ghost use Rattle.ids.specs.Pool.{id_of};
ghost use Rattle.ids.specs.Rows.{GoodIds};
ghost use Rattle.made_ids.specs.Made.{feed_of, built_of};

use ids::Lent;
use tables::IdRows;
use trip_ids::trip_at;

// The text before the first ':', or all of it.
fn feed<'a>(base: &'a [u8]) -> &'a [u8]
    ensures { result.now ≡ feed_of base.now }
{
    match text_runs::first_of(base, b':') {
        Some(k) => ids::part(base, 0, k),
        None => base,
    }
}

// The trip whose id is made of the ref's feed and its journey id, where that is a UUID.
pub fn built(lent: &Lent, tripkeys: IdRows, base: &[u8]) -> Option<usize>
    requires { GoodIds (id_of lent.now.bytes.now lent.now.words.now tripkeys.id) tripkeys.id.starts.n }
    ensures { result ≡ built_of lent.now.bytes.now lent.now.words.now tripkeys base.now }
{
    let id = tripkeys.id;
    let row = tripkeys.row;
    let j = refs::journey_id(base);
    if uuids::is_uuid(j) {
        return trip_at(
            lent.words,
            row,
            keys::find_joined(lent, id, b"", feed(base), b":IDFM:TN:SNCF:", j),
        );
    }
    None
}
