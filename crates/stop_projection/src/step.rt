// The cursor's step on a lent line.
ghost use Rattle.std.specs.Prelude.{◌≡◌};
ghost use Rattle.refusals.specs.Answer.{answer_of, number_of};
ghost use Rattle.stop_projection.specs.Step.{step_refusal, stepped_of};

use lengths::{Point, Polyline};
use projection::{Cursor, Step};
use refusals::Refusal;

// Refused are columns of unequal length, else over 8,192 points, else a position off the globe.
fn check_step(line: Polyline, stop: Point) -> Result<(), Refusal>
    ensures { number_of (answer_of result) ≡ step_refusal line.entry.lat.now line.entry.lon.now stop }
{
    if line.lat.len() != line.lon.len() {
        return Err(Refusal::Columns);
    }
    if 8192 < line.lat.len() {
        return Err(Refusal::Count);
    }
    if column_floats::off_globe(line.lat, line.lon, b"", true) {
        return Err(Refusal::Position);
    }
    if globe::on_globe(stop.lat, stop.lon) {
        return Ok(());
    }
    Err(Refusal::Position)
}

// The vertex that a stop lies at from the cursor on, and the next cursor; or the first refusal that applies.
pub fn project_stop(line: Polyline, cursor: Cursor, stop: Point) -> Result<Step, Refusal>
    ensures { answer_of result ≡ stepped_of line.entry.lat.now line.entry.lon.now cursor stop }
{
    check_step(line, stop)?;
    Ok(cursor.step(line, stop))
}
