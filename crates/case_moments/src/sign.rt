// Moments and delays.
ghost use Rattle.std.specs.Prelude.{◌≡◌, ◌≤◌, ◌<◌, ◌^◌};
ghost use Rattle.case_moments.specs.Moments.{with_sign, signed_of, moment_of, delay_of};

use case_digits::spelled;

// 1 to 18 decimal digits, after a minus or not.
pub fn moment(s: &[u8]) -> Option<i64>
    ensures { result ≡ moment_of s.now }
{
    signed(s, 18, 999999999999999999, 999999999999999999)
}

// 1 to 10 decimal digits, after a minus or not, within i32.
pub fn delay(s: &[u8]) -> Option<i64>
    ensures { result ≡ delay_of s.now }
{
    signed(s, 10, 2147483648, 2147483647)
}

// Up to so many digits, after a minus or not, from -least to `most`.
fn signed(s: &[u8], digits: usize, least: u64, most: u64) -> Option<i64>
    requires digits_bound { 10 ^ digits ≤ 2 ^ 64 }
    requires least_bound { least < 2 ^ 63 }
    requires most_bound { most < 2 ^ 63 }
    ensures { result ≡ signed_of digits least most s.now }
{
    match s {
        [b'-', size @ ..] => with_sign(spelled(size, 10, digits), true, least),
        _ => with_sign(spelled(s, 10, digits), false, most),
    }
}

fn with_sign(size: Option<u64>, minus: bool, most: u64) -> Option<i64>
    requires { most < 2 ^ 63 }
    ensures { result ≡ with_sign size minus most }
{
    let size = size.filter(|n| *n <= most)? as i64;
    Some(if minus { -size } else { size })
}
