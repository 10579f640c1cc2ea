// The C names under which tools/oracle holds what is read from the tables beside the Rust. Where each column
// stands is said by the words themselves: their first 28 are the starts and counts of 14 columns.
#![tactic(auto)]

ghost use Rattle.std.specs.Prelude.{◌≡◌};
ghost use Rattle.trip_samples.specs.Trip.{trip_affine};
ghost use Rattle.oracle_line.specs.Asked.{is_by, scale_or, start_or};
ghost use Rattle.oracle_tables.specs.Asked.{course_of, span_at};

use courses::Course;
use ids::{IdColumn, Lent, Span};
use tables::{Points, Shapes, StopTimes, Stops, Trips};

// The column whose start is word i and whose count is the next.
fn span(words: &[u32], i: u32) -> Span
    ensures { result ≡ span_at words.now i }
{
    let at = i as usize;
    Span {
        at: ids::word(words, at),
        n: ids::word(words, at + 1),
    }
}

fn trips(words: &[u32]) -> Trips
    ensures { result ≡ (course_of words.now).trips }
{
    let unread = span(words, 0);
    let ids = IdColumn {
        starts: unread,
        lens: unread,
    };
    Trips {
        feed: ids,
        service: ids,
        shape: span(words, 0),
        shaped: span(words, 2),
        frequency: unread,
        first: span(words, 4),
        count: span(words, 6),
    }
}

fn times(words: &[u32]) -> StopTimes
    ensures { result ≡ (course_of words.now).times }
{
    let unread = span(words, 0);
    StopTimes {
        sequence: unread,
        stop: span(words, 8),
        arrival: unread,
        departure: unread,
        dist: span(words, 10),
        measured: span(words, 12),
    }
}

fn stops(words: &[u32]) -> Stops
    ensures { result ≡ (course_of words.now).stops }
{
    let unread = span(words, 0);
    let ids = IdColumn {
        starts: unread,
        lens: unread,
    };
    Stops {
        own: ids,
        raw: ids,
        lat: span(words, 14),
        lon: span(words, 16),
        positioned: span(words, 18),
    }
}

fn shapes(words: &[u32]) -> Shapes
    ensures { result ≡ (course_of words.now).shapes }
{
    let unread = span(words, 0);
    Shapes {
        id: IdColumn {
            starts: unread,
            lens: unread,
        },
        first: span(words, 20),
        count: span(words, 22),
    }
}

fn points(words: &[u32]) -> Points
    ensures { result ≡ (course_of words.now).points }
{
    Points {
        lat: span(words, 24),
        lon: span(words, 26),
    }
}

fn course(words: &[u32]) -> Course
    ensures { result ≡ course_of words.now }
{
    Course {
        trips: trips(words),
        times: times(words),
        stops: stops(words),
        shapes: shapes(words),
        points: points(words),
    }
}

// The start and the scale go to `a` and `b`, which stay as they were where there is no answer.
#[unsafe(no_mangle)]
pub extern "C" fn zebumorn_trip_shape_dist_affine(
    bytes: &[u8],
    words: &[u32],
    reals: &[f64],
    dists: &[f32],
    trip: usize,
    a: &mut f64,
    b: &mut f64,
) -> bool
    ensures value { result ≡ is_by (trip_affine bytes.now words.now reals.now dists.now (course_of words.now) trip) }
    ensures a_after { a.new ≡ start_or (trip_affine bytes.now words.now reals.now dists.now (course_of words.now) trip) a.old }
    ensures b_after { b.new ≡ scale_or (trip_affine bytes.now words.now reals.now dists.now (course_of words.now) trip) b.old }
{
    let c = course(words);
    let answer = trip_samples::trip_shape_dist_affine(
        &Lent {
            bytes,
            words,
            times: &[],
            reals,
            dists,
        },
        c,
        trip,
    );
    oracle_line::write_affine(answer, a, b)
}
