// A trip by the keys of its ref, one after the other.
ghost use Rattle.std.specs.Prelude.{◌≡◌};
ghost use Rattle.alias_keys.specs.Aliases.{first_trip, keys_of};

use alias_keys::TripIds;

// The trip of the first of a base key's keys that stands for one. An alias of a trip that is not there is passed over.
pub fn by_alias(trips: &TripIds, base: &[u8]) -> Option<usize>
    ensures { result ≡ first_trip trips.now.lent.bytes.now trips.now.lent.words.now trips.now.tripkeys trips.now.aliases (keys_of base.now) }
{
    let raw = key_parts::raw(base);
    let j = refs::journey_id(raw);
    let first = trips.or_alias(None, b"", b"", base);
    let second = trips.or_alias(first, b"", b"", raw);
    let third = trips.or_alias(second, b"", b"", key_parts::without_loc(raw));
    let fourth = trips.or_alias(third, b"", b"", j);
    let fifth = trips.or_uuid(fourth, j);
    trips.or_local(fifth, j)
}
