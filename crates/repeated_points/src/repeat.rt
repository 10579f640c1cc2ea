// What is drawn after the last point drawn.
ghost use Rattle.std.specs.Prelude.{◌≡◌};
ghost use Rattle.point_columns.specs.Drawn.{next_of};
ghost use Rattle.repeated_points.specs.Repeats.{differ};

use lengths::Point;

// Whether two points differ in latitude or in longitude: zeros of either sign do not, and NaN does.
#[tactic(auto, unfolding(crate::specs::Repeats::differ))]
fn is_other(q: Point, p: Point) -> bool
    ensures { result ≡ differ q p }
{
    !(q.lat == p.lat && q.lon == p.lon)
}

// What is drawn of a position after the last point drawn. `leg_parts::next` has another test: a closure in its place would need clauses of its own, longer than this match.
pub fn next(last: Option<Point>, stop: Option<Point>) -> Option<Point>
    ensures { result ≡ next_of differ last stop }
{
    match (last, stop) {
        (Some(q), Some(p)) if !is_other(q, p) => None,
        _ => stop,
    }
}
