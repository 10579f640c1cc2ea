// Where a byte stands in a text, and how far a run of bytes goes. What `str::find`, `rfind`, `trim_end_matches` and `take_while` are asked for
// in gtfs/siri_trip_map.rs and rt/estimate.rs.
ghost use Rattle.std.specs.Prelude.{◌≡◌};
ghost use Rattle.ids.specs.Bytes.{is_of};
ghost use Rattle.text_runs.specs.Runs.{first_byte, last_byte, run_of, kept_of, digits_at, digit_run, alnum_run, trimmed_of};

use ids::{Kind, of_kind};

// Where the byte first stands.
#[tactic(auto, using(ids::proofs::Search::first_miss), unfolding(crate::specs::Runs::first_byte))]
pub fn first_of(s: &[u8], byte: u8) -> Option<usize>
    ensures { result ≡ first_byte s.now byte }
{
    for (k, b) in s.iter().enumerate() {
        if *b == byte {
            return Some(k);
        }
    }
    None
}

// Where the byte last stands.
#[tactic(auto, using(ids::proofs::Search::last_hit, ids::proofs::Search::last_skip, ids::proofs::Search::last_miss), unfolding(crate::specs::Runs::last_byte))]
pub fn last_of(s: &[u8], byte: u8) -> Option<usize>
    ensures { result ≡ last_byte s.now byte }
{
    for k in (0..s.len()).rev() {
        if s[k] == byte {
            return Some(k);
        }
    }
    None
}

// How many bytes at the beginning are of the kind. A `for`: what `take_while(..).count()` gives was not proved.
#[tactic(auto, using(ids::proofs::Search::first_miss), unfolding(crate::specs::Runs::run_of))]
pub fn run(s: &[u8], kind: Kind) -> usize
    ensures { result ≡ run_of (is_of kind) s.now }
{
    for (k, b) in s.iter().enumerate() {
        if !of_kind(kind, *b) {
            return k;
        }
    }
    s.len()
}

// The length of s without the bytes of the kind at its end. A `for`, as `run`.
#[tactic(auto, using(ids::proofs::Search::last_hit, ids::proofs::Search::last_skip, ids::proofs::Search::last_miss), unfolding(crate::specs::Runs::kept_of))]
pub fn kept(s: &[u8], kind: Kind) -> usize
    ensures { result ≡ kept_of (is_of kind) s.now }
{
    for k in (0..s.len()).rev() {
        if !of_kind(kind, s[k]) {
            return k + 1;
        }
    }
    0
}

// Where the digits at the end begin: 7 in "STIF:Q:412".
pub fn digits_at(s: &[u8]) -> usize
    ensures { result ≡ digits_at s.now }
{
    kept(s, Kind::Digit)
}

// How many digits stand at the beginning: 3 in "412:".
pub fn digit_run(s: &[u8]) -> usize
    ensures { result ≡ digit_run s.now }
{
    run(s, Kind::Digit)
}

// How many letters and digits stand at the beginning: 6 in "C01742:".
pub fn alnum_run(s: &[u8]) -> usize
    ensures { result ≡ alnum_run s.now }
{
    run(s, Kind::Alnum)
}

// The length of s without that byte at its end, however often: 3 of "C01::", without ':'.
pub fn trimmed(s: &[u8], byte: u8) -> usize
    ensures { result ≡ trimmed_of s.now byte }
{
    kept(s, Kind::Byte(byte))
}
