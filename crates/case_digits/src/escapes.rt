// Bytes as % and two digits, as ids of a case have them.
ghost use Rattle.std.specs.Prelude.{◌≡◌, ◌<◌};
ghost use Rattle.case_digits.specs.Escapes.{glyph_of, escape_of};

// A byte as % and two digits.
pub fn escape(b: u8) -> [u8; 3]
    ensures { result ≡ escape_of b }
{
    [b'%', glyph(b / 16), glyph(b % 16)]
}

fn glyph(d: u8) -> u8
    requires { d < 16 }
    ensures { result ≡ glyph_of d }
{
    if d < 10 { b'0' + d } else { b'a' - 10 + d }
}
