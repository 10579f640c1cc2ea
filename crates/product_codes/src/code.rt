// The product code of a line: the word after "LINE::", or else the first word that is a code.
ghost use Rattle.std.specs.Prelude.{◌≡◌, length};
ghost use Rattle.ids.specs.First.{first as first_below};
ghost use Rattle.product_codes.specs.Codes.{word, line_word, is_code, begins_word, code_at, code_word, product_code};

use parts::{first, from, if_long, past_place};

// The letters and digits at the beginning.
fn word_of<'a>(s: &'a [u8]) -> &'a [u8]
    ensures { result.now ≡ word s.now }
{
    first(s, text_runs::alnum_run(s))
}

// Those after the first "LINE::", in any case; four at least.
fn line_word<'a>(s: &'a [u8]) -> &'a [u8]
    ensures { result.now ≡ line_word s.now }
{
    let place = texts::first_place_ignoring_case(s, b"LINE::");
    if_long(word_of(past_place(s, place, 6)), 4)
}

// Five bytes at least: 'C' or 'c', and then digits alone.
fn is_code(w: &[u8]) -> bool
    ensures { result ≡ is_code w.now }
{
    if w.len() < 5 {
        return false;
    }
    if ids::upper(w[0]) != b'C' {
        return false;
    }
    let rest = from(w, 1);
    text_runs::digit_run(rest) == rest.len()
}

// No letter or digit stands before k.
fn begins_word(s: &[u8], k: usize) -> bool
    ensures { result ≡ begins_word s.now k }
{
    if k == 0 {
        return true;
    }
    if s.len() < k {
        return true;
    }
    !ids::alnum(s[k - 1])
}

fn code_at(s: &[u8], k: usize) -> bool
    ensures { result ≡ code_at s.now k }
{
    if begins_word(s, k) {
        return is_code(word_of(from(s, k)));
    }
    false
}

// Where the first code begins.
#[tactic(auto, using(ids::proofs::Search::first_miss))]
fn code_place(s: &[u8]) -> Option<usize>
    ensures { result ≡ first_below (code_at s.now) (length s.now) }
{
    for k in 0..s.len() {
        if code_at(s, k) {
            return Some(k);
        }
    }
    None
}

// The first word that is a code.
fn code_word<'a>(s: &'a [u8]) -> &'a [u8]
    ensures { result.now ≡ code_word s.now }
{
    word_of(past_place(s, code_place(s), 0))
}

// `line_product_code` of a route id.
pub fn product_code<'a>(s: &'a [u8]) -> &'a [u8]
    ensures { result.now ≡ product_code s.now }
{
    let w = line_word(s);
    if w.len() == 0 {
        return code_word(s);
    }
    w
}
