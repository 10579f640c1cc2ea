// Replays a sample of the Rust's answers about lines: reads lines and what is asked of them, and writes an answer for each question. tools/oracle wrote
// the file stdin, and the file stdout from what the Rust answered.
//
// A float is the 16 hexadecimal digits of its bits; an f32, and a vertex's number, are 8 digits:
//   line                               a new line, without vertices
//   vertex LAT LON                     one vertex more
//   trip                               a new trip along the line
//   stop LAT LON                       the trip's next stop; `stop` alone is one without a position
//   length K                           how long the line is up to vertex K
//   first FROM LAT LON                 the first vertex near a point; `last` the last
//   nearest LAT LON                    the vertex nearest to a point, in degrees
//   scale RATIO                        the unit that a ratio is near
//   affine LAT LON DIST LAT LON DIST   the metres that two samples' distances stand for
//   dist D0 D1 FRAC                    the position at a fraction of the way between two distances
//   feed D0 D1 FRAC A B                the same in a feed's unit
//   along FRAC                         the position at a fraction of the line
//   polyline LAT LON LAT LON FRAC      the position at a fraction of the way between two stops
#![tactic(auto)]

mod ask; // ask.rt: the questions
mod read; // read.rt: the numbers of a line of text
mod tell; // tell.rt: the answers

use input_bytes::read_full;
use lengths::Polyline;
use projection::Cursor;
use std::io;

// The most vertices of a line.
const ROOM: usize = 64;

// A line so far, and where its trip has got to.
#[derive(Clone, Copy)]
struct Asked {
    lat: [f64; ROOM],
    lon: [f64; ROOM],
    n: usize,
    cursor: Cursor,
}

impl Asked {
    fn new() -> Self {
        Asked {
            lat: [0.0; ROOM],
            lon: [0.0; ROOM],
            n: 0,
            cursor: Cursor::new(),
        }
    }

    // One vertex more, for which a full line has no place, and a new trip.
    fn add_vertex(&mut self, lat: f64, lon: f64) {
        if self.n < ROOM {
            self.lat[self.n] = lat;
            self.lon[self.n] = lon;
        }
        self.n = self.n.wrapping_add(1);
        self.cursor = Cursor::new();
    }

    fn lat(&self) -> &[f64] {
        &self.lat[..self.n.min(ROOM)]
    }

    fn lon(&self) -> &[f64] {
        &self.lon[..self.n.min(ROOM)]
    }
}

fn main(rt: HostRuntime) -> io::Result<()> {
    let mut text = [0u8; 131072];
    let n = read_full(&mut rt.stdin(), &mut text)?;
    replay(&rt, &text[..n])
}

fn replay(out: &impl Print, text: &[u8]) -> io::Result<()> {
    let mut asked = Asked::new();
    for line in text.split_inclusive(|b| *b == b'\n') {
        step(out, &mut asked, line.strip_suffix(b"\n").unwrap_or(line))?;
    }
    Ok(())
}

// Reads a line of the text.
fn step(out: &impl Print, asked: &mut Asked, words: &[u8]) -> io::Result<()> {
    if words.starts_with(b"line") {
        asked.n = 0;
        asked.cursor = Cursor::new();
    } else if words.starts_with(b"vertex ") {
        asked.add_vertex(read::double(words, 7), read::double(words, 24));
    } else if words.starts_with(b"trip") {
        asked.cursor = Cursor::new();
    } else if words.starts_with(b"stop") {
        // the trip's next stop
        let stop = read::position(words, 5);
        let passed = asked.cursor.pass(
            Polyline {
                lat: asked.lat(),
                lon: asked.lon(),
            },
            stop,
        );
        asked.cursor = passed.cursor;
        tell::found(out, passed.vertex)?;
    } else {
        let line = Polyline {
            lat: asked.lat(),
            lon: asked.lon(),
        };
        ask::answer(out, line, words)?;
    }
    Ok(())
}
