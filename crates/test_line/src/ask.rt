// The questions of a line.
use crate::read::{double, index, point, single};
use crate::tell;
use calibration::Sample;
use lengths::Polyline;
use std::io;

// A question's name, and the numbers after it.
pub(crate) fn answer(out: &impl Print, line: Polyline, words: &[u8]) -> io::Result<()> {
    let Some(end) = words.iter().position(|b| *b == b' ') else {
        return println!(out; "no such question");
    };
    let w = &words[end + 1..];
    match &words[..end] {
        b"length" => tell::double(out, running_lengths::length_to(line, index(w, 0))),
        b"first" => {
            let k = near_vertex::forward_shape_index(line, index(w, 0), point(w, 9));
            println!(out; "{k}")
        }
        b"last" => {
            let k = near_vertex::forward_last_index(line, index(w, 0), point(w, 9));
            println!(out; "{k}")
        }
        b"nearest" => {
            let k = nearest::nearest_idx(line, point(w, 0));
            println!(out; "{k}")
        }
        b"scale" => tell::double(out, unit_scales::snap_unit_scale(double(w, 0))),
        b"affine" => tell::calibrated(
            out,
            calibration::shape_dist_affine(line, sample(w, 0), sample(w, 51)),
        ),
        name => place(out, line, name, w),
    }
}

// A point, and a distance.
fn sample(words: &[u8], at: usize) -> Sample {
    Sample {
        at: point(words, at),
        dist: double(words, at.wrapping_add(34)),
    }
}

// Places along the line.
fn place(out: &impl Print, line: Polyline, name: &[u8], w: &[u8]) -> io::Result<()> {
    let drawn = match name {
        b"dist" => by_distance::interpolate_shape_by_dist(
            line,
            single(w, 0),
            single(w, 9),
            double(w, 18),
        ),
        b"feed" => by_distance::interpolate_shape_by_feed_dist(
            line,
            single(w, 0),
            single(w, 9),
            double(w, 18),
            double(w, 35),
            double(w, 52),
        ),
        b"along" => routes::interpolate_along_vertices(line, double(w, 0)),
        b"polyline" => polylines::interpolate_polyline(
            line,
            point(w, 0),
            point(w, 34),
            double(w, 68),
        ),
        _ => return println!(out; "no such question"),
    };
    tell::place(out, drawn)
}
