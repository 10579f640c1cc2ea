// Whether another row of a line is as likely as the one that fits best.
ghost use Rattle.std.specs.Prelude.{◌≡◌, not, ◌&&◌, eqb};
ghost use Rattle.columns.specs.Rows.{some};
ghost use Rattle.departure_fits.specs.Departures.{near};
ghost use Rattle.line_fits.specs.Asked.{fits_of};
ghost use Rattle.line_crowds.specs.Crowds.{beside, is_crowded};

use departure_fits::{Fit, are_near, away_of};
use line_fits::Line;
use trip_fits::Asked;

// Whether row k is another than b, and within two minutes of it.
fn is_beside(k: usize, b: usize, a: Option<Fit>, fit: Option<Fit>) -> bool
    ensures { result ≡ (not (eqb k b) && near a fit) }
{
    k != b && are_near(a, fit)
}

// Whether another row of the line is within two minutes of row b.
fn has_beside(line: &Line, asked: Asked, b: usize, fit: Option<Fit>) -> bool
    requires { fit ≡ fits_of line.now asked b }
    ensures { result ≡ some (beside (fits_of line.now asked) b) line.now.timetable.plan.lines.trip.n }
{
    for k in line.from..line.timetable.plan.lines.trip.n as usize {
        if !line.has(k) {
            return false;
        }
        if is_beside(k, b, line.fit_at(asked, k), fit) {
            return true;
        }
    }
    false
}

// Whether row b is over a minute away and has another beside it.
pub fn crowded(line: &Line, asked: Asked, b: usize, fit: Option<Fit>) -> bool
    requires { fit ≡ fits_of line.now asked b }
    ensures { result ≡ is_crowded (fits_of line.now asked) line.now.timetable.plan.lines.trip.n b }
{
    if away_of(fit) <= 60 {
        return false;
    }
    has_beside(line, asked, b, fit)
}
