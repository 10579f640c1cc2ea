// Which stop is drawn after the last point drawn.
ghost use Rattle.std.specs.Prelude.{◌≡◌};
ghost use Rattle.point_columns.specs.Drawn.{next_of};
ghost use Rattle.leg_parts.specs.Parts.{apart};

use ieee::abs;
use lengths::Point;

// Whether two points differ by more than 1e-9 in latitude or in longitude; NaN does not.
fn is_apart(q: Point, p: Point) -> bool
    ensures { result ≡ apart q p }
{
    abs(q.lat - p.lat) > 1e-9 || abs(q.lon - p.lon) > 1e-9
}

// What is drawn of a stop after the last point drawn. `repeated_points::next` has another test: a closure in its place would need clauses of its own, longer than this match.
pub fn next(last: Option<Point>, stop: Option<Point>) -> Option<Point>
    ensures { result ≡ next_of apart last stop }
{
    match (last, stop) {
        (Some(q), Some(p)) if !is_apart(q, p) => None,
        _ => stop,
    }
}
