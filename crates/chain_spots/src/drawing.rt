// Where a chain is at a fraction of its length, and the position drawn there.
ghost use Rattle.std.specs.Prelude.{◌≡◌, suc};
ghost use Rattle.line_parts.specs.Part.{at};
ghost use Rattle.stretches.specs.Drawing.{between_of, first_of, last_of, draw_of};
ghost use Rattle.routes.specs.Route.{inside_of, along_of};
ghost use Rattle.chain_vertices.specs.Walk.{points_of};

use crate::passes::stretch_of;
use chain_stretches::on_two;
use chain_vertices::MarkedChain;
use line_parts::Part;
use routes::Route;
use stretches::{Drawn, Spot};

// At a fraction between 0 and 1. Under a metre in all a chain is one straight stretch.
fn inside(chain: &MarkedChain, route: Route, f: f64) -> Spot
    ensures { result ≡ inside_of (points_of chain.now) route f }
{
    if route.total < 1.0 {
        return Spot::Straight(f);
    }
    stretch_of(chain, route.part, route.total * f)
}

// At any fraction.
#[tactic(auto, unfolding(routes::specs::Route::along_of))]
pub fn along(chain: &MarkedChain, route: Route, f: f64) -> Spot
    ensures { result ≡ along_of (points_of chain.now) route f }
{
    let part = route.part;
    if part.last <= part.first || f <= 0.0 {
        Spot::First
    } else if f >= 1.0 {
        Spot::NoStretch
    } else {
        inside(chain, route, f)
    }
}

// The position at the first vertex of a part, towards the next; bearing 0 where it has no other.
fn first_drawn(chain: &MarkedChain, part: Part) -> Drawn
    ensures { result ≡ first_of (points_of chain.now) part }
{
    let here = chain.seek(part.first);
    let p = here.at;
    if part.first < part.last {
        let there = chain.onward(part.first, here);
        on_two(p, there.at, Spot::First)
    } else {
        Drawn {
            lat: p.lat,
            lon: p.lon,
            bearing: 0.0,
        }
    }
}

// The position at the fraction t of the stretch from vertex k on.
fn stretch_drawn(chain: &MarkedChain, k: usize, t: f64) -> Drawn
    ensures { result ≡ between_of (at (points_of chain.now) k) (at (points_of chain.now) (suc k)) t }
{
    let here = chain.seek(k);
    let there = chain.onward(k, here);
    on_two(here.at, there.at, Spot::Stretch(0, t))
}

// The position at the fraction t of the straight line between the ends of a part.
fn straight_drawn(chain: &MarkedChain, part: Part, t: f64) -> Drawn
    ensures { result ≡ between_of (at (points_of chain.now) part.first) (at (points_of chain.now) part.last) t }
{
    let here = chain.seek(part.first);
    let there = chain.seek(part.last);
    on_two(here.at, there.at, Spot::Stretch(0, t))
}

// The position at the last vertex of a part, from the one before.
fn last_drawn(chain: &MarkedChain, part: Part) -> Drawn
    ensures { result ≡ last_of (points_of chain.now) part }
{
    let here = chain.seek(part.last.saturating_sub(1));
    let there = chain.seek(part.last);
    on_two(here.at, there.at, Spot::NoStretch)
}

// The position of a spot on a part of a chain.
pub fn drawn(chain: &MarkedChain, part: Part, spot: Spot) -> Drawn
    ensures { result ≡ draw_of (points_of chain.now) part spot }
{
    match spot {
        Spot::First => first_drawn(chain, part),
        Spot::Stretch(k, t) => stretch_drawn(chain, k, t),
        Spot::Straight(t) => straight_drawn(chain, part, t),
        Spot::NoStretch => last_drawn(chain, part),
    }
}
