// Texts compared byte for byte or, with `fold`, as if they were in upper case.
ghost use Rattle.std.specs.Prelude.{◌≡◌, map};
ghost use Rattle.ids.specs.Bytes.{fold_of};
ghost use Rattle.text_folds.specs.Folds.{prefix_of, first_place};

// s begins with the needle.
#[tactic(auto, using(crate::proofs::Folds::prefix_upper, crate::proofs::Folds::equal_if, crate::proofs::Folds::equal_only_if, crate::proofs::Folds::prefix_long))]
pub fn starts(fold: bool, s: &[u8], needle: &[u8]) -> bool
    ensures { result ≡ prefix_of (map (fold_of fold) needle.now) (map (fold_of fold) s.now) }
{
    if !fold {
        return s.starts_with(needle);
    }
    if s.len() < needle.len() {
        return false;
    }
    needle.eq_ignore_ascii_case(&s[..needle.len()])
}

// The first place of s where the needle stands.
pub fn place(fold: bool, s: &[u8], needle: &[u8]) -> Option<usize>
    ensures { result ≡ first_place (map (fold_of fold) needle.now) (map (fold_of fold) s.now) }
{
    for at in 0..=s.len() {
        if starts(fold, &s[at..], needle) {
            return Some(at);
        }
    }
    None
}
