// The numbers of a line of text, each by where it begins.
use lengths::Point;

pub(crate) fn double(words: &[u8], at: usize) -> f64 {
    float_bits::f64_of(questions::number(words, at, 16))
}

pub(crate) fn single(words: &[u8], at: usize) -> f32 {
    float_bits::f32_of(questions::number(words, at, 8) as u32)
}

pub(crate) fn index(words: &[u8], at: usize) -> usize {
    questions::number(words, at, 8) as usize
}

// Two numbers.
pub(crate) fn point(words: &[u8], at: usize) -> Point {
    Point {
        lat: double(words, at),
        lon: double(words, at.wrapping_add(17)),
    }
}

// Two numbers, or the end of the line.
pub(crate) fn position(words: &[u8], at: usize) -> Option<Point> {
    if words.len() < at {
        return None;
    }
    Some(point(words, at))
}
