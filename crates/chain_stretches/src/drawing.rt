// The position drawn on two points.
ghost use Rattle.std.specs.Prelude.{◌≡◌, [], ◌∷◌};
ghost use Rattle.stretches.specs.Drawing.{draw_of};
ghost use Rattle.chain_stretches.specs.Two.{two};

use lengths::{Point, Polyline};
use line_parts::Part;
use stretches::{Drawn, Spot, draw};

// The position on the line of two points.
pub fn on_two(p: Point, q: Point, spot: Spot) -> Drawn
    ensures { result ≡ draw_of (p ∷ q ∷ []) two spot }
{
    let lat = [p.lat, q.lat];
    let lon = [p.lon, q.lon];
    draw(
        Polyline {
            lat: &lat,
            lon: &lon,
        },
        Part { first: 0, last: 1 },
        spot,
    )
}
