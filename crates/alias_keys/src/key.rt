// A trip by keys of its aliases. Each function is handed what is found so far, and looks for more only where that is nothing.
ghost use Rattle.std.specs.Prelude.{◌≡◌, ◌++◌};
ghost use Rattle.ids.specs.First.{or_else};
ghost use Rattle.alias_keys.specs.Aliases.{Known, alias_trip, first_trip, uuid_keys, local_keys};

use ids::Lent;
use tables::{Aliases, IdRows};
use trip_ids::by_key;

// The trip ids and the aliases of the lent tables, which ascend, and of which none is over 96 bytes.
#[derive(Clone, Copy)]
pub struct TripIds<'a> {
    pub lent: Lent<'a>,
    pub tripkeys: IdRows,
    pub aliases: Aliases,
    pub ghost known: { Known lent.bytes.now lent.words.now tripkeys aliases },
}

impl<'a> TripIds<'a> {
    // Or else the trip that the three parts joined, of which some may be empty, are an alias of.
    #[tactic(auto, unfolding(crate::specs::Aliases::alias_trip))]
    pub fn or_alias(&self, found: Option<usize>, a: &[u8], b: &[u8], c: &[u8]) -> Option<usize>
        ensures { result ≡ or_else found (alias_trip self.now.lent.bytes.now self.now.lent.words.now self.now.tripkeys self.now.aliases (a.now ++ (b.now ++ c.now))) }
    {
        if let Some(k) = found {
            return Some(k);
        }
        let k = keys::find_joined(&self.lent, self.aliases.id, b"", a, b, c)?;
        by_key(
            &self.lent,
            self.tripkeys,
            ids::id(&self.lent, self.aliases.trip, k),
        )
    }

    // Or else by the keys of a journey id that is a UUID.
    pub fn or_uuid(&self, found: Option<usize>, j: &[u8]) -> Option<usize>
        ensures { result ≡ or_else found (first_trip self.now.lent.bytes.now self.now.lent.words.now self.now.tripkeys self.now.aliases (uuid_keys j.now)) }
    {
        if uuids::is_uuid(j) {
            let first = self.or_alias(found, b"", b"IDFM:TN:SNCF:", j);
            let second = self.or_alias(first, b"SNCF_MAGENTA_PRD:VehicleJourney::", j, b":LOC");
            return self.or_alias(second, b"SNCF:VehicleJourney::", j, b":LOC");
        }
        found
    }

    // Or else by the keys of a journey id that begins with "local-".
    pub fn or_local(&self, found: Option<usize>, j: &[u8]) -> Option<usize>
        ensures { result ≡ or_else found (first_trip self.now.lent.bytes.now self.now.lent.words.now self.now.tripkeys self.now.aliases (local_keys j.now)) }
    {
        if texts::begins(j, b"local-") {
            let first = self.or_alias(found, b"stif:VehicleJourney:", j, b":LOC");
            return self.or_alias(first, b"", b"IDFM:stif:", j);
        }
        found
    }
}
