// A stop by a key of its name. Each function is handed what is found so far, and looks for more only where that is nothing.
ghost use Rattle.std.specs.Prelude.{◌≡◌, ◌++◌};
ghost use Rattle.ids.specs.First.{or_else};
ghost use Rattle.stop_keys.specs.Names.{Known, stop_at, first_stop, feed_keys};

use ids::Lent;
use stop_rows::{Lookup, if_positioned};

// The lent tables that a stop is looked up in: the ids of stops and of trips ascend, and none is over 96 bytes.
#[derive(Clone, Copy)]
pub struct StopIds<'a> {
    pub lent: Lent<'a>,
    pub lookup: Lookup,
    pub ghost known: { Known lent.bytes.now lent.words.now lookup },
}

impl<'a> StopIds<'a> {
    // Or else the stop whose id the three parts joined are, of which some may be empty.
    #[tactic(auto, unfolding(crate::specs::Names::stop_at))]
    pub fn or_stop(&self, found: Option<usize>, a: &[u8], b: &[u8], c: &[u8]) -> Option<usize>
        ensures { result ≡ or_else found (stop_at self.now.lent.bytes.now self.now.lent.words.now self.now.lookup (a.now ++ (b.now ++ c.now))) }
    {
        if let Some(k) = found {
            return Some(k);
        }
        let stopkeys = self.lookup.stopkeys;
        let k = keys::find_joined(&self.lent, stopkeys.id, b"", a, b, c)?;
        if_positioned(
            self.lent.bytes,
            self.lookup.stops,
            ids::cell(self.lent.words, stopkeys.row, k) as usize,
        )
    }

    // Or else by the keys of digits that begin with the feed.
    pub fn or_feed(&self, found: Option<usize>, feed: &[u8], d: &[u8]) -> Option<usize>
        ensures { result ≡ or_else found (first_stop self.now.lent.bytes.now self.now.lent.words.now self.now.lookup (feed_keys feed.now d.now)) }
    {
        let first = self.or_stop(found, feed, b":", d);
        let second = self.or_stop(first, feed, b":IDFM:", d);
        let third = self.or_stop(second, feed, b":IDFM:monomodalStopPlace:", d);
        self.or_stop(third, feed, b":IDFM:StopPoint:", d)
    }
}
