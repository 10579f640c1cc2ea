// A line's token is looked up in upper case.
ghost use Rattle.std.specs.Prelude.{◌≡◌, map};
ghost use Rattle.ids.specs.Bytes.{upper_of};
ghost use Rattle.trip_fits.specs.Plans.{Planned};
ghost use Rattle.trip_times.specs.Line.{line_trip, ShortTokens};

use crate::line::by_line;
use trip_fits::{Asked, Timetable};

// The trip of the line whose token this is in upper case. No token is over 96 bytes, so that a longer one has no line.
pub fn by_token(timetable: &Timetable, token: &[u8], asked: Asked) -> Option<usize>
    requires planned { Planned timetable.now.lent.bytes.now timetable.now.lent.words.now timetable.now.plan }
    requires short_tokens { ShortTokens timetable.now.lent.bytes.now timetable.now.lent.words.now timetable.now.plan }
    ensures { result ≡ line_trip timetable.now.lent.bytes.now timetable.now.lent.words.now timetable.now.plan (map upper_of token.now) asked.today asked.yesterday }
{
    if 96 < token.len() {
        return None;
    }
    let mut buf = [0u8; 96];
    let n = keys::upper_into(&mut buf, 0, token);
    by_line(timetable, &buf[..n], asked)
}
