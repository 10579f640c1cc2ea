// A trip by all that comes before route and time.
ghost use Rattle.std.specs.Prelude.{◌≡◌};
ghost use Rattle.named_trips.specs.Named.{id_trip};

use alias_keys::TripIds;
use made_ids::built;
use trip_aliases::by_alias;
use trip_ids::by_key;

// The trip that a base key names: as its id, by its aliases, or by the id made of its parts.
#[tactic(auto, unfolding(crate::specs::Named::id_trip))]
pub fn by_id(trips: &TripIds, base: &[u8]) -> Option<usize>
    ensures { result ≡ id_trip trips.now.lent.bytes.now trips.now.lent.words.now trips.now.tripkeys trips.now.aliases base.now }
{
    if let Some(k) = by_key(&trips.lent, trips.tripkeys, base) {
        return Some(k);
    }
    if let Some(k) = by_alias(trips, base) {
        return Some(k);
    }
    built(&trips.lent, trips.tripkeys, base)
}
