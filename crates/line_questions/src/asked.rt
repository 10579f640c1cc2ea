// Each question, of what is not refused. Where fewer rows are lent than it reads, there is no answer.
ghost use Rattle.std.specs.Prelude.{◌≡◌};
ghost use Rattle.lengths.specs.Line.{line_of};
ghost use Rattle.line_questions.specs.Asked.{vertices_lent, polyline_lent, position_lent, along_lent};

use ids::Lent;
use lengths::Polyline;
use lent_distances::{between_distances, between_feed_distances};
use stretches::Drawn;
use tables::{Along, cut};

// What is asked of a line.
#[derive(Clone, Copy)]
pub enum Question {
    // the place at a fraction of the way between two distances in metres: the numbers are the fraction
    ByDistance,
    // between two distances of a feed: the numbers are the fraction, and the calibration's a and b
    ByFeedDistance,
    // at a fraction of the whole line
    AlongVertices,
    // at a fraction of the part between the vertices nearest to two ends
    Polyline,
}

fn of_line(line: Polyline, x: &[f64]) -> Option<Drawn>
    ensures { result ≡ vertices_lent (line_of line.entry.lat.now line.entry.lon.now) x.now }
{
    if x.len() < 1 {
        return None;
    }
    routes::interpolate_along_vertices(line, x[0])
}

fn of_part(line: Polyline, y: &[f64], z: &[f64], x: &[f64]) -> Option<Drawn>
    ensures { result ≡ polyline_lent (line_of line.entry.lat.now line.entry.lon.now) (line_of y.now z.now) x.now }
{
    if lengths::vertices(Polyline { lat: y, lon: z }) < 2 {
        return None;
    }
    if x.len() < 1 {
        return None;
    }
    polylines::interpolate_polyline(
        line,
        lengths::vertex(Polyline { lat: y, lon: z }, 0),
        lengths::vertex(Polyline { lat: y, lon: z }, 1),
        x[0],
    )
}

// The position asked for: y and z are the ends' latitudes and longitudes, d distances, x numbers.
fn position(
    question: Question,
    line: Polyline,
    y: &[f64],
    z: &[f64],
    d: &[f32],
    x: &[f64],
) -> Option<Drawn>
    ensures { result ≡ position_lent question (line_of line.entry.lat.now line.entry.lon.now) (line_of y.now z.now) d.now x.now }
{
    match question {
        Question::ByDistance => between_distances(line, d, x),
        Question::ByFeedDistance => between_feed_distances(line, d, x),
        Question::AlongVertices => of_line(line, x),
        Question::Polyline => of_part(line, y, z, x),
    }
}

// The position asked for, of what is not refused.
pub fn lent(lent: &Lent, question: Question, a: Along) -> Option<Drawn>
    ensures { result ≡ along_lent lent.now.reals.now lent.now.dists.now question a }
{
    let lat = a.line.lat;
    let lon = a.line.lon;
    let y = a.ends.lat;
    let z = a.ends.lon;
    let d = a.dists;
    let x = a.numbers;
    position(
        question,
        Polyline {
            lat: cut(lent.reals, lat),
            lon: cut(lent.reals, lon),
        },
        cut(lent.reals, y),
        cut(lent.reals, z),
        cut(lent.dists, d),
        cut(lent.reals, x),
    )
}
