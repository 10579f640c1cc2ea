// The stop that a row of the updates means.
ghost use Rattle.std.specs.Prelude.{◌<◌, ◌≡◌};
ghost use Rattle.calls.specs.Calls.{Ready, update_stop};

use ids::Lent;
use stop_ids::stop_of;
use stop_keys::StopIds;
use stop_rows::Lookup;
use tables::{Sailing, Updates};
use update_rows::is_set;

// What is reported of a sailing, and the tables that its stops are looked up in.
#[derive(Clone, Copy)]
pub struct Reported {
    pub lookup: Lookup,
    pub updates: Updates,
    pub sailing: Sailing,
}

// By its name, if it has one, or else by its sequence in the trip whose id is the sailing's key before its last '@'.
pub fn update_stop(lent: &Lent, v: Reported, k: usize) -> Option<usize>
    requires ready { Ready lent.now.bytes.now lent.now.words.now v }
    requires k_lt_n { k < v.updates.sequence.n }
    ensures { result ≡ update_stop lent.now.bytes.now lent.now.words.now v k }
{
    let feeds = v.sailing.feed;
    let keys = v.sailing.key;
    let named = v.updates.named;
    let names = v.updates.stop;
    let sequences = v.updates.sequence;
    let feed = ids::id(lent, feeds, 0);
    let base = key_parts::base(ids::id(lent, keys, 0));
    let has = is_set(lent.bytes, named, k);
    let name = ids::id(lent, names, k);
    let sequence = ids::cell(lent.words, sequences, k);
    let stops = StopIds {
        lent: *lent,
        lookup: v.lookup,
    };
    stop_of(&stops, feed, base, has, name, sequence)
}
