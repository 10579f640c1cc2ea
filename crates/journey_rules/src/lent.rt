// What is lent: a row for each leg. A flag is a byte, zero or not. All columns of the legs have as many rows as the first.
use ids::Span;
use tables::Points;

#[repr(C)]
#[derive(Clone, Copy)]
pub struct JourneyLegs {
    // whether it is a walk; else it is transit
    pub walk: Span,
    // its points are `count` from `first` on
    pub first: Span,
    pub count: Span,
    // where a walk starts, if that is known
    pub start: Points,
    pub started: Span,
    // where it ends
    pub end: Points,
    pub ended: Span,
    // the points of all legs
    pub points: Points,
}
