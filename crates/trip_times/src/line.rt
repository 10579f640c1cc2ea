// The trip of a line that fits the moment asked of best.
ghost use Rattle.std.specs.Prelude.{◌≡◌};
ghost use Rattle.trip_fits.specs.Plans.{Planned};
ghost use Rattle.trip_times.specs.Line.{line_trip};

use line_crowds::crowded;
use line_fits::Line;
use trip_fits::{Asked, Timetable};

// The trip of the line with the token that fits best, unless another is as likely.
pub fn by_line(timetable: &Timetable, token: &[u8], asked: Asked) -> Option<usize>
    requires { Planned timetable.now.lent.bytes.now timetable.now.lent.words.now timetable.now.plan }
    ensures { result ≡ line_trip timetable.now.lent.bytes.now timetable.now.lent.words.now timetable.now.plan token.now asked.today asked.yesterday }
{
    let line = Line::new(timetable, token);
    let best = line.best_of(asked)?;
    if crowded(&line, asked, best, line.fit_at(asked, best)) {
        return None;
    }
    Some(line.trip_at(best))
}
