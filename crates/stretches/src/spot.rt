// Where on a part of a line.
#[derive(Clone, Copy)]
pub enum Spot {
    // At the part's first vertex.
    First,
    // On the stretch from this vertex of the line to the next, at this fraction of it.
    Stretch(usize, f64),
    // On the straight line from the part's first vertex to its last, at this fraction of it.
    Straight(f64),
    // On no stretch: at the part's last vertex.
    NoStretch,
}
