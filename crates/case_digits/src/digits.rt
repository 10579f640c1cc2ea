// What digits of a base spell.
ghost use Rattle.std.specs.Prelude.{◌≡◌, ◌≤◌, ◌<◌, ◌^◌, IfSome};
ghost use Rattle.case_digits.specs.Digits.{digit_of, digit_below, spelled_of};

// What a digit is worth, letters in lower case; 16 for any other byte.
fn worth(b: u8) -> u64
    ensures { result ≡ digit_of b }
{
    match b {
        b'0'..=b'9' => u64::from(b - b'0'),
        b'a'..=b'f' => u64::from(b - b'a') + 10,
        _ => 16,
    }
}

// What a digit of a base is worth.
pub fn digit(b: u8, base: u64) -> Option<u64>
    ensures value { result ≡ digit_below base b }
    ensures below { IfSome result (λ d. d < base) }
{
    Some(worth(b)).filter(|d| *d < base)
}

// What one digit or more, and no more than `most`, spell in a base.
#[tactic(auto, unfolding(crate::specs::Digits::spelled_of))]
pub fn spelled(s: &[u8], base: u64, most: usize) -> Option<u64>
    requires most_bound { base ^ most ≤ 2 ^ 64 }
    requires base_nonzero { 0 < base }
    ensures { result ≡ spelled_of base most s.now }
{
    if s.is_empty() || most < s.len() {
        return None;
    }
    let mut value = 0;
    for b in s {
        let d = digit(*b, base)?;
        value = value * base + d;
    }
    Some(value)
}
