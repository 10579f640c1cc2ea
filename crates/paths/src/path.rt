// How a leg is drawn: what the Rust's `interpolate_segment` tries in turn, and its `PathGeom`.
ghost use Rattle.std.specs.Prelude.{◌≡◌};
ghost use Rattle.paths.specs.Path.{feed_span, path_kind, path_status, path_way};

use crate::status::Status;
use lengths::Point;
use routes::Route;
use spans::{Span, feed_metres, span_of};
use unit_scales::Affine;
use ways::Way;

// An end of a leg: a call, or the static stop before the first call.
#[derive(Clone, Copy)]
pub struct End {
    pub sequence: u32,
    pub at: Point,
}

// How a leg is drawn, chosen without the fraction.
#[derive(Clone, Copy)]
pub enum Path {
    // Along the trip's shape, between two distances.
    ByDistance(Span),
    // Along the shape, between the vertices nearest to the leg's ends.
    Polyline(Route, Way),
    // Along the stops between: the whole chain with its length.
    Chain(Route),
    // As the crow flies.
    Straight,
}

// What a place's vertices are counted over.
#[derive(Clone, Copy, Debug, PartialEq, Eq)]
pub enum Line {
    // The whole shape.
    Shape,
    // The chain of stops, from the leg's start.
    Chain,
    // The leg's two ends.
    Straight,
}

// The span between two distances of a feed; short where one is missing, or the calibration.
pub fn feed_span(calibrated: Option<Affine>, d0: Option<f32>, d1: Option<f32>) -> Option<Span>
    ensures { result ≡ feed_span calibrated d0 d1 }
{
    let by = calibrated?;
    let from = d0?;
    let to = d1?;
    span_of(feed_metres(by.a, by.b, from), feed_metres(by.a, by.b, to))
}

// Which way the path's line is sailed.
pub fn path_way(path: Path) -> Way
    ensures { result ≡ path_way path }
{
    match path {
        Path::ByDistance(span) => span.way,
        Path::Polyline(_, way) => way,
        Path::Chain(_) => Way::With,
        Path::Straight => Way::With,
    }
}

// What its vertices are counted over.
pub fn path_kind(path: Path) -> Line
    ensures { result ≡ path_kind path }
{
    match path {
        Path::ByDistance(_) => Line::Shape,
        Path::Polyline(_, _) => Line::Shape,
        Path::Chain(_) => Line::Chain,
        Path::Straight => Line::Straight,
    }
}

// The status of a ferry on it.
pub fn path_status(path: Path) -> Status
    ensures { result ≡ path_status path }
{
    match path {
        Path::ByDistance(_) => Status::OnShape,
        Path::Polyline(_, _) => Status::OnShape,
        Path::Chain(_) => Status::OnStopChain,
        Path::Straight => Status::InTransitTo,
    }
}
