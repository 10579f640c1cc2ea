// Which stops are kept: all but those that lie at the one kept last.
ghost use Rattle.std.specs.Prelude.{◌≡◌, ◌<◌};
ghost use Rattle.chain_lines.specs.Kept.{is_dropped, is_kept, after_of};

use crate::stop::point_or;
use chain_stretches::near;
use lengths::Point;

// How many stops are kept so far, and the last of them.
#[derive(Clone, Copy)]
pub struct Last {
    pub kept: usize,
    pub at: Point,
}

// Whether a point lies at the stop kept last.
fn drops(last: Last, p: Point) -> bool
    ensures { result ≡ is_dropped last p }
{
    if 0 < last.kept {
        return near(last.at, p);
    }
    false
}

// Whether a stop is kept. One without a position is not.
pub fn keeps(last: Last, stop: Option<Point>) -> bool
    ensures { result ≡ is_kept last stop }
{
    match stop {
        Some(p) => !drops(last, p),
        None => false,
    }
}

// After a stop that is kept, or is not.
pub fn after(last: Last, stop: Option<Point>, keep: bool) -> Last
    requires { last.kept < 4294967296 }
    ensures { result ≡ after_of last stop keep }
{
    if keep {
        return Last {
            kept: last.kept + 1,
            at: point_or(stop),
        };
    }
    last
}
