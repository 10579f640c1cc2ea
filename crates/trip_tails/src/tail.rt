// A trip by the tail of the ref.
ghost use Rattle.std.specs.Prelude.{ℕ, ◌<◌, ◌≡◌, false};
ghost use Rattle.trip_tails.specs.Tails.{has_tail, tail_row, tail_first, only_trip, tail_trip};

use ids::Lent;
use tables::IdRows;

// Whether the id ends with the tail or, where that has 8 bytes or more, contains it.
fn has_tail(id: &[u8], tail: &[u8]) -> bool
    ensures { result ≡ has_tail tail.now id.now }
{
    if texts::ends_with(id, tail) {
        return true;
    }
    if tail.len() < 8 {
        return false;
    }
    texts::contains(id, tail)
}

// Whether row k's id has the tail, and its trip is another than the one found, if any is.
fn is_row(lent: &Lent, tripkeys: IdRows, tail: &[u8], found: Option<usize>, k: usize) -> bool
    ensures { result ≡ tail_row lent.now.bytes.now lent.now.words.now tripkeys tail.now found k }
{
    let id = tripkeys.id;
    let row = tripkeys.row;
    if has_tail(ids::id(lent, id, k), tail) {
        return match found {
            Some(trip) => ids::cell(lent.words, row, k) as usize != trip,
            None => true,
        };
    }
    false
}

// The first such row, of which there is none before `from`.
#[tactic(auto, using(ids::proofs::Search::first_miss))]
fn next_row(
    lent: &Lent,
    tripkeys: IdRows,
    tail: &[u8],
    found: Option<usize>,
    from: usize,
) -> Option<usize>
    requires { (j : ℕ) → j < from → tail_row lent.now.bytes.now lent.now.words.now tripkeys tail.now found j ≡ false }
    ensures { result ≡ tail_first lent.now.bytes.now lent.now.words.now tripkeys tail.now found }
{
    for k in from..tripkeys.id.starts.n as usize {
        if is_row(lent, tripkeys, tail, found, k) {
            return Some(k);
        }
    }
    None
}

// The trip of the first row whose id has the tail, unless a later such row names another.
fn only_trip(lent: &Lent, tripkeys: IdRows, tail: &[u8]) -> Option<usize>
    ensures { result ≡ only_trip lent.now.bytes.now lent.now.words.now tripkeys tail.now }
{
    let row = tripkeys.row;
    match next_row(lent, tripkeys, tail, None, 0) {
        Some(k) => {
            let trip = Some(ids::cell(lent.words, row, k) as usize);
            match next_row(lent, tripkeys, tail, trip, k + 1) {
                Some(_) => None,
                None => trip,
            }
        }
        None => None,
    }
}

// The only trip whose ids have the tail of the ref, if it has one.
pub fn by_tail(lent: &Lent, tripkeys: IdRows, base: &[u8]) -> Option<usize>
    ensures { result ≡ tail_trip lent.now.bytes.now lent.now.words.now tripkeys base.now }
{
    let tail = key_parts::tail(base);
    if tail.len() == 0 {
        return None;
    }
    only_trip(lent, tripkeys, tail)
}
