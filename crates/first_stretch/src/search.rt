// The first stretch of a part that a target meets, a target being a length along the part.
ghost use Rattle.std.specs.Prelude.{◌≡◌};
ghost use Rattle.lengths.specs.Line.{line_of};
ghost use Rattle.first_stretch.specs.Search.{fraction_of, meets, stretch_at};

use ieee::{clamp01, max_of};
use lengths::Polyline;
use line_parts::{Part, stretch_length};
use stretches::Spot;

// Whether a target is on the stretch from the length `from` to the length `to`, or no more than the
// tolerance past it.
#[tactic(auto, unfolding(crate::specs::Search::meets))]
fn met(tolerance: f64, target: f64, from: f64, to: f64) -> bool
    ensures { result ≡ meets tolerance target from to }
{
    target >= from && target <= to + tolerance
}

// Which fraction of that stretch is behind the target. A stretch counts as a millionth of a metre at
// least.
fn fraction(target: f64, from: f64, to: f64) -> f64
    ensures { result ≡ fraction_of target from to }
{
    clamp01((target - from) / max_of(to - from, 0.000001))
}

// A target before the part's start meets no stretch, as one past its end.
pub fn stretch_at(line: Polyline, part: Part, tolerance: f64, target: f64) -> Spot
    ensures { result ≡ stretch_at (line_of line.entry.lat.now line.entry.lon.now) part tolerance target }
{
    let mut sum = 0.0;
    for k in part.first..part.last {
        let next = sum + stretch_length(line, k);
        if met(tolerance, target, sum, next) {
            return Spot::Stretch(k, fraction(target, sum, next));
        }
        sum = next;
    }
    Spot::NoStretch
}
