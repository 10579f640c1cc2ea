// Where something stands in a text. What `str::find`, `starts_with`, `ends_with`, `contains` and `trim_end_matches` are asked for in
// gtfs/siri_trip_map.rs and rt/estimate.rs.
ghost use Rattle.std.specs.Prelude.{◌≡◌};
ghost use Rattle.ids.specs.Cmp.{equal};
ghost use Rattle.texts.specs.Texts.{suffix_of, holds, equal_ignoring_case, first_place_ignoring_case, trimmed_text};
ghost use Rattle.text_folds.specs.Folds.{prefix_of, first_place};

// s begins with the needle.
#[tactic(auto, using(text_folds::proofs::Folds::starts_prefix))]
pub fn begins(s: &[u8], needle: &[u8]) -> bool
    ensures { result ≡ prefix_of needle.now s.now }
{
    s.starts_with(needle)
}

// s ends with the needle.
#[tactic(auto, using(crate::proofs::Trims::ends_suffix))]
pub fn ends_with(s: &[u8], needle: &[u8]) -> bool
    ensures { result ≡ suffix_of needle.now s.now }
{
    s.ends_with(needle)
}

// The first place of s where the needle stands. An empty needle stands at 0.
pub fn first_place(s: &[u8], needle: &[u8]) -> Option<usize>
    ensures { result ≡ first_place needle.now s.now }
{
    text_folds::place(false, s, needle)
}

// The same where "line" and "LINE" are one.
pub fn first_place_ignoring_case(s: &[u8], needle: &[u8]) -> Option<usize>
    ensures { result ≡ first_place_ignoring_case needle.now s.now }
{
    text_folds::place(true, s, needle)
}

// The needle stands somewhere in s.
#[tactic(auto, unfolding(crate::specs::Texts::holds))]
pub fn contains(s: &[u8], needle: &[u8]) -> bool
    ensures { result ≡ holds needle.now s.now }
{
    match first_place(s, needle) {
        Some(_) => true,
        None => false,
    }
}

// Whether a and b are equal. Texts of different lengths are told apart at once.
#[tactic(auto, using(text_folds::proofs::Folds::equal_pointwise))]
pub fn same(a: &[u8], b: &[u8]) -> bool
    ensures { result ≡ equal a.now b.now }
{
    a == b
}

// a and b are equal where "loc" and "LOC" are.
#[tactic(auto, using(text_folds::proofs::Folds::equal_if, text_folds::proofs::Folds::equal_only_if))]
pub fn equal_ignoring_case(a: &[u8], b: &[u8]) -> bool
    ensures { result ≡ equal_ignoring_case a.now b.now }
{
    a.eq_ignore_ascii_case(b)
}

// The length of s without that text at its end, however often: 3 of "C01:LOC", without ":LOC".
pub fn trimmed_text(s: &[u8], tail: &[u8]) -> usize
    ensures { result ≡ trimmed_text tail.now s.now }
{
    if tail.is_empty() {
        return s.len();
    }
    let mut left = s;
    while let Some(rest) = left.strip_suffix(tail) {
        left = rest;
    }
    left.len()
}
