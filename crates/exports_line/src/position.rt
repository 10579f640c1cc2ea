// The position at a fraction.
ghost use Rattle.std.specs.Prelude.{◌≡◌, ◌↔◌, ◌||◌, eqb, ltb, IsNone, IsTrue, IfSome};
ghost use Rattle.tables.specs.Pools.{pools};
ghost use Rattle.exports_line.specs.Asked.{question_of, interpolation_told};

use ids::{Lent, Span};
use interpolate::interpolate;
use line_questions::Question;
use line_told::{PositionTold, no_position, tell_position};
use tables::{Along, Points};

// 1 between two distances in metres, 2 between two of a feed, 3 along the whole line, 4 between two ends; any other number is no question's.
fn question_of(question: u32) -> Option<Question>
    ensures none { IsNone result ↔ IsTrue (eqb question 0 || ltb 4 question) }
    ensures some { IfSome result (λ q. q ≡ question_of question) }
{
    match question {
        1 => Some(Question::ByDistance),
        2 => Some(Question::ByFeedDistance),
        3 => Some(Question::AlongVertices),
        4 => Some(Question::Polyline),
        _ => None,
    }
}

// A question that is none of the four gets 1.
#[unsafe(no_mangle)]
pub extern "C" fn zebumorn_interpolate(
    bytes: &[u8],
    words: &[u32],
    times: &[i64],
    reals: &[f64],
    dists: &[f32],
    question: u32,
    line: Points,
    ends: Points,
    distances: Span,
    numbers: Span,
) -> PositionTold
    ensures { result ≡ interpolation_told (pools bytes.now words.now times.now reals.now dists.now) question (record { line = line; ends = ends; dists = distances; numbers = numbers }) }
{
    let Some(asked) = question_of(question) else {
        return no_position(1);
    };
    let lent = Lent {
        bytes,
        words,
        times,
        reals,
        dists,
    };
    let a = Along {
        line,
        ends,
        dists: distances,
        numbers,
    };
    tell_position(interpolate(&lent, asked, a))
}
