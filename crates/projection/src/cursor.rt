// The cursor of a projection: the vertex of the last stop with a position, before which no later stop
// is looked for.
ghost use Rattle.std.specs.Prelude.{◌≡◌};
ghost use Rattle.lengths.specs.Line.{line_of};
ghost use Rattle.projection.specs.Projection.{at_start, step_of, passed_of};

use lengths::{Point, Polyline};
use near_vertex::forward_shape_index;

#[derive(Clone, Copy)]
pub struct Cursor {
    pub at: usize,
}

// The next cursor, and the vertex of the stop.
#[derive(Clone, Copy)]
pub struct Step {
    pub cursor: Cursor,
    pub vertex: usize,
}

// The next cursor, and the vertex of the stop if it has one.
#[derive(Clone, Copy)]
pub struct Passed {
    pub cursor: Cursor,
    pub vertex: Option<usize>,
}

impl Cursor {
    // Before the first stop of a trip.
    pub fn new() -> Self
        ensures { result ≡ at_start }
    {
        Cursor { at: 0 }
    }

    // Takes a stop at a point.
    pub fn step(self, line: Polyline, stop: Point) -> Step
        ensures { result ≡ step_of (line_of line.entry.lat.now line.entry.lon.now) self stop }
    {
        let vertex = forward_shape_index(line, self.at, stop);
        Step {
            cursor: Cursor { at: vertex },
            vertex,
        }
    }

    // Takes any stop: one without a position gets no vertex and does not move the cursor.
    pub fn pass(self, line: Polyline, stop: Option<Point>) -> Passed
        ensures { result ≡ passed_of (line_of line.entry.lat.now line.entry.lon.now) self stop }
    {
        match stop {
            Some(point) => {
                let step = self.step(line, point);
                let cursor = step.cursor;
                Passed {
                    cursor,
                    vertex: Some(step.vertex),
                }
            }
            None => Passed {
                cursor: self,
                vertex: None,
            },
        }
    }
}
