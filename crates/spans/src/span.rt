// Two distances along a line, in metres, and the way that it is sailed between them.
ghost use Rattle.std.specs.Prelude.{◌≡◌};
ghost use Rattle.spans.specs.Span.{spread, span_of, target_of, feed_metres};

use float_bits::narrow;
use ieee::{abs, clamp01};
use std::num::f32_to_f64_with_nan;
use ways::{Way, turned};

// `lo` is the lower, where both are numbers.
#[derive(Clone, Copy)]
pub struct Span {
    pub lo: f64,
    pub hi: f64,
    pub way: Way,
}

// The span, unless it is short.
fn unless_short(lo: f64, hi: f64, way: Way) -> Option<Span>
    ensures { result ≡ spread lo hi way }
{
    if abs(hi - lo) < 0.5 {
        None
    } else {
        Some(Span { lo, hi, way })
    }
}

// From the distance d0 to the distance d1.
#[tactic(auto, unfolding(crate::specs::Span::span_of))]
pub fn span_of(d0: f32, d1: f32) -> Option<Span>
    ensures { result ≡ span_of d0 d1 }
{
    let from = f32_to_f64_with_nan(d0);
    let to = f32_to_f64_with_nan(d1);
    if d0 <= d1 {
        unless_short(from, to, Way::With)
    } else {
        unless_short(to, from, Way::Against)
    }
}

// The length along the line at a fraction of a span in sailing direction.
#[tactic(auto, unfolding(crate::specs::Span::target_of))]
pub fn target(span: Span, frac: f64) -> f64
    ensures { result ≡ target_of span frac }
{
    let way = span.way;
    span.lo + (span.hi - span.lo) * turned(way, clamp01(frac))
}

// The metres of a feed's distance.
#[tactic(auto, unfolding(crate::specs::Span::feed_metres))]
pub fn feed_metres(a: f64, b: f64, d: f32) -> f32
    ensures { result ≡ feed_metres a b d }
{
    narrow(a + b * f32_to_f64_with_nan(d))
}
