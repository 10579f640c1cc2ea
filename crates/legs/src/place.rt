// Where a ferry is. Legs and calls count from 1, and leg k leads to call k.
ghost use Rattle.std.specs.Prelude.{◌≡◌};
ghost use Rattle.legs.specs.Place.{place_of};

use paths::Line;
use stretches::Spot;
use ways::Way;

#[derive(Clone, Copy)]
pub enum Place {
    // At this call.
    Call(u32),
    // At this leg's start, before all its stretches.
    Start(u32),
    // At this leg's end, after them.
    End(u32),
    // On this leg, on a stretch of this line, which is sailed this way: the stretch's lower vertex,
    // and the fraction of it as it is drawn, in the order of the vertices.
    Stretch(u32, Line, Way, usize, f64),
    // On this leg, at the last vertex of its path: the target met no stretch.
    NoStretch(u32, Line, Way),
}

// The place that a spot is on a leg. A straight line is one stretch, from the leg's start to its end.
pub fn place_of(leg: u32, kind: Line, way: Way, spot: Spot) -> Place
    ensures { result ≡ place_of leg kind way spot }
{
    match spot {
        Spot::First => Place::Start(leg),
        Spot::Stretch(vertex, t) => Place::Stretch(leg, kind, way, vertex, t),
        Spot::Straight(t) => Place::Stretch(leg, Line::Straight, Way::With, 0, t),
        Spot::NoStretch => Place::NoStretch(leg, kind, way),
    }
}
