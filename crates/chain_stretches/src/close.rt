// Whether two points lie at one place.
ghost use Rattle.std.specs.Prelude.{◌≡◌};
ghost use Rattle.chain_stretches.specs.Near.{is_near};

use ieee::abs;
use lengths::Point;

// Whether both coordinates of q are less than 1e-9 from those of p.
pub fn near(p: Point, q: Point) -> bool
    ensures { result ≡ is_near p q }
{
    if abs(p.lat - q.lat) < 0.000000001 {
        return abs(p.lon - q.lon) < 0.000000001;
    }
    false
}
