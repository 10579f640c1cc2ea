// Hexadecimal numbers, in lower case.
ghost use Rattle.std.specs.Prelude.{◌<◌, ◌≤◌, ◌^◌, ◌≡◌, get_or, take, drop};
ghost use Rattle.questions.specs.Hex.{digit_of, hex_of};

// A digit's value, and 0 of any other byte.
#[tactic(auto, unfolding(crate::specs::Hex::digit_of))]
fn digit(b: u8) -> u64
    ensures value { result ≡ digit_of b }
    ensures upper_bound { result < 16 }
{
    match b {
        b'0'..=b'9' => (b - b'0') as u64,
        b'a'..=b'f' => (b - 87) as u64,
        _ => 0,
    }
}

// The byte at i, or 0 past the end.
fn byte(digits: &[u8], i: usize) -> u8
    ensures { result ≡ get_or digits.now i 0 }
{
    match digits.get(i) {
        Some(b) => *b,
        None => 0,
    }
}

// The number that the n digits from `at` on stand for; one that is missing counts as 0.
pub fn number(text: &[u8], at: usize, n: usize) -> u64
    requires { n ≤ 16 }
    ensures value { result ≡ hex_of n (take n (drop at text.now)) }
    ensures upper_bound { result < 16 ^ n }
{
    let digits = ids::part(text, at, n);
    let mut bits: u64 = 0;
    for i in 0..n {
        bits = bits * 16 + digit(byte(digits, i));
    }
    bits
}
