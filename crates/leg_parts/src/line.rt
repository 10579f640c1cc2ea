// The part of a line between two vertices.
ghost use Rattle.std.specs.Prelude.{◌≡◌, Some};
ghost use Rattle.lengths.specs.Line.{line_of};
ghost use Rattle.leg_parts.specs.Parts.{part_between};

use lengths::Polyline;
use line_parts::{Part, whole};

// From the one to the other; the whole line where they are the same.
pub fn between(line: Polyline, i: usize, j: usize) -> Part
    ensures { result ≡ part_between (line_of line.entry.lat.now line.entry.lon.now) (Some i) (Some j) }
{
    if i < j {
        Part { first: i, last: j }
    } else {
        whole(line)
    }
}
