// A limit of `reach` for the vertices that are left.
ghost use Rattle.reach.specs.Reach.{Beyond};

use reach::limit;

// A limit past which no way is as short as `most`, where so many vertices are left that it is worth
// its root.
pub fn far(most: f64, left: usize) -> f64
    ensures { Beyond most result }
{
    if left < 3 { f64::INFINITY } else { limit(most) }
}
