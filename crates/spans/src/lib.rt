// Spans: two distances along a line, in metres from its first vertex, and the way that it is sailed between them. A feed's distances become
// metres by a calibration of two numbers a and b: a + b·d for a distance d. Nothing is required of the values. The line itself is not read.
#![tactic(auto)]

mod span; // two distances in the order of the vertices, and the way between them

pub use span::{Span, feed_metres, span_of, target};
