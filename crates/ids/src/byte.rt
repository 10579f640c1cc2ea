// Single bytes of ASCII text. Bytes above 127 are no letters and keep their value.
ghost use Rattle.std.specs.Prelude.{◌≡◌};
ghost use Rattle.ids.specs.Bytes.{is_digit, is_alnum, is_of, upper_of, fold_of};

// A kind of bytes, of which a text has a run.
#[derive(Clone, Copy)]
pub enum Kind {
    // This byte alone.
    Byte(u8),
    // '0' to '9'.
    Digit,
    // '0' to '9', 'A' to 'Z', 'a' to 'z'.
    Alnum,
}

pub fn digit(b: u8) -> bool
    ensures { result ≡ is_digit b }
{
    b.is_ascii_digit()
}

// A letter's upper case, and any other byte itself.
#[tactic(auto, unfolding(crate::specs::Bytes::upper_of))]
pub fn upper(b: u8) -> u8
    ensures { result ≡ upper_of b }
{
    b.to_ascii_uppercase()
}

// A letter or a digit.
#[tactic(auto, unfolding(crate::specs::Bytes::is_alnum))]
pub fn alnum(b: u8) -> bool
    ensures { result ≡ is_alnum b }
{
    let c = upper(b);
    b.is_ascii_digit() || (65 <= c && c <= 90)
}

pub fn of_kind(kind: Kind, b: u8) -> bool
    ensures { result ≡ is_of kind b }
{
    match kind {
        Kind::Byte(x) => b == x,
        Kind::Digit => digit(b),
        Kind::Alnum => alnum(b),
    }
}

// A byte as it is compared and written: in upper case with `fold`, else as it is.
pub fn letter(fold: bool, b: u8) -> u8
    ensures { result ≡ fold_of fold b }
{
    if fold { upper(b) } else { b }
}
