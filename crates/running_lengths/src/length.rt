// Lengths along a line, summed from the left, one rounding for each stretch.
ghost use Rattle.std.specs.Prelude.{◌≡◌};
ghost use Rattle.lengths.specs.Line.{line_of};
ghost use Rattle.running_lengths.specs.Length.{length_to};

use lengths::{Polyline, metres, vertex, vertices};

// The length along a line from its first vertex to vertex k, in metres; to its last where it has no
// vertex k.
pub fn length_to(line: Polyline, k: usize) -> f64
    ensures { result ≡ length_to (line_of line.entry.lat.now line.entry.lon.now) k }
{
    let mut sum = 0.0;
    for i in 0..k.min(vertices(line).saturating_sub(1)) {
        sum += metres(vertex(line, i), vertex(line, i + 1));
    }
    sum
}
