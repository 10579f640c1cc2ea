// Which rows and ends a leg's chain has.
ghost use Rattle.std.specs.Prelude.{◌≡◌};
ghost use Rattle.chain_rows.specs.Rows.{leg_chain};

use ids::cell;
use lengths::Point;
use tables::Trips;

// Of `count` rows from `first` on, those with a sequence from `lo` to `hi`. Where the earlier end has the higher
// sequence they are sailed against their order.
#[derive(Clone, Copy)]
pub struct Chain {
    pub first: u32,
    pub count: u32,
    pub lo: u32,
    pub hi: u32,
    pub reversed: bool,
    pub from: Point,
    pub to: Point,
}

// The chain of a leg of a trip, from the sequence s at `from` to the sequence t at `to`.
pub fn chain_of(
    words: &[u32],
    trips: Trips,
    trip: usize,
    s: u32,
    from: Point,
    t: u32,
    to: Point,
) -> Chain
    ensures { result ≡ leg_chain words.now trips trip s from t to }
{
    let firsts = trips.first;
    let counts = trips.count;
    let first = cell(words, firsts, trip);
    let count = cell(words, counts, trip);
    if t < s {
        return Chain {
            first,
            count,
            lo: t,
            hi: s,
            reversed: true,
            from,
            to,
        };
    }
    Chain {
        first,
        count,
        lo: s,
        hi: t,
        reversed: false,
        from,
        to,
    }
}
