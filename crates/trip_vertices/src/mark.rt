// One stop: its vertex as a word, and where the cursor goes.
ghost use Rattle.std.specs.Prelude.{◌≡◌, ◌≤◌, length};
ghost use Rattle.lengths.specs.Line.{line_of};
ghost use Rattle.trip_vertices.specs.Vertices.{word_of, marked_of};

use lengths::{Point, Polyline};
use projection::Cursor;

// Where the cursor is after a stop, and the stop's vertex as a word.
#[derive(Clone, Copy)]
pub(crate) struct Marked {
    pub at: usize,
    pub word: u32,
}

// Takes a stop.
pub(crate) fn mark(line: Polyline, at: usize, stop: Option<Point>) -> Marked
    requires { length (line_of line.lat.now line.lon.now) ≤ 4294967295 }
    ensures { result ≡ marked_of (line_of line.entry.lat.now line.entry.lon.now) at stop }
{
    let cursor = Cursor { at };
    let passed = cursor.pass(line, stop);
    let next = passed.cursor;
    let vertex = passed.vertex;
    match vertex {
        Some(k) => Marked {
            at: next.at,
            word: k as u32,
        },
        None => Marked {
            at: next.at,
            word: 4294967295,
        },
    }
}
