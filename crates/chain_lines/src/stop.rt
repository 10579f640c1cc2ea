// The stops of rows between two sequences.
ghost use Rattle.std.specs.Prelude.{◌≡◌, ◌<◌};
ghost use Rattle.lengths.specs.Line.{nowhere};
ghost use Rattle.chain_lines.specs.Stops.{is_between, point_or};
ghost use Rattle.chain_lines.specs.Chain.{stop_of};

use chain_rows::Chain;
use ids::{Lent, cell};
use lengths::Point;
use tables::{StopTimes, Stops};
use trip_rows::row_position;

// Whether a row's sequence is from lo to hi.
fn is_between(words: &[u32], c: StopTimes, lo: u32, hi: u32, row: usize) -> bool
    ensures { result ≡ is_between words.now c lo hi row }
{
    let column = c.sequence;
    let sequence = cell(words, column, row);
    if sequence < lo {
        return false;
    }
    if hi < sequence {
        return false;
    }
    true
}

// Where the stop of a chain's i-th row is, if its sequence is between.
pub fn stop_of(lent: &Lent, s: Stops, c: StopTimes, chain: Chain, i: usize) -> Option<Point>
    requires { i < chain.count }
    ensures { result ≡ stop_of lent.now.bytes.now lent.now.words.now lent.now.reals.now s c chain i }
{
    let row = chain.first as usize + i;
    if is_between(lent.words, c, chain.lo, chain.hi, row) {
        return row_position(lent, s, c, row);
    }
    None
}

// No point.
pub fn no_point() -> Point
    ensures { result ≡ nowhere }
{
    Point {
        lat: 0.0 / 0.0,
        lon: 0.0 / 0.0,
    }
}

// The point of a position, and no point where it is missing.
pub fn point_or(stop: Option<Point>) -> Point
    ensures { result ≡ point_or stop }
{
    match stop {
        Some(p) => p,
        None => no_point(),
    }
}
