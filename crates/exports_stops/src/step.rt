// A stop from a cursor on.
ghost use Rattle.std.specs.Prelude.{◌≡◌};
ghost use Rattle.stop_projection.specs.Step.{stepped_of};
ghost use Rattle.line_told.specs.Told.{step_told};

use lengths::{Point, Polyline};
use line_told::{StepTold, tell_step};
use projection::Cursor;
use stop_projection::project_stop;

// The stop is at latitude y and longitude x.
#[unsafe(no_mangle)]
pub extern "C" fn zebumorn_project_stop(
    lat: &[f64],
    lon: &[f64],
    cursor: usize,
    y: f64,
    x: f64,
) -> StepTold
    ensures { result ≡ step_told (stepped_of lat.entry.now lon.now (record { at = cursor }) (record { lat = y; lon = x })) }
{
    let from = Cursor { at: cursor };
    let stop = Point { lat: y, lon: x };
    tell_step(project_stop(Polyline { lat, lon }, from, stop))
}
