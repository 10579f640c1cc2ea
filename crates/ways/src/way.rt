// The way that a line is sailed.
ghost use Rattle.std.specs.Prelude.{◌≡◌};
ghost use Rattle.ways.specs.Way.{turned_of};

#[derive(Clone, Copy, Debug, PartialEq, Eq)]
pub enum Way {
    // In the order of its vertices.
    With,
    // Against it.
    Against,
}

// A fraction in sailing direction from one in the order of the vertices, and back.
pub fn turned(way: Way, f: f64) -> f64
    ensures { result ≡ turned_of way f }
{
    match way {
        Way::With => f,
        Way::Against => 1.0 - f,
    }
}
