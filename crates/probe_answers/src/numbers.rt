// The maths, lengths and bearings.
use float_bits::{bits_of_f32, bits_of_f64};
use refusals::Refusal;
use std::io;

// A line of a float's bits.
pub(crate) fn print_double(out: &impl Print, x: f64) -> io::Result<()> {
    println!(out; "{:016x}", bits_of_f64(x))
}

pub(crate) fn print_single(out: &impl Print, x: f32) -> io::Result<()> {
    println!(out; "{:08x}", bits_of_f32(x))
}

// The arc tangent is document 01's, for an argument in 0..1; a NaN is not in it.
pub(crate) fn print_atan(out: &impl Print, x: f64) -> io::Result<()> {
    if 0.0 <= x && x <= 1.0 {
        print_double(out, arcs::atan(x))
    } else {
        case_answers::print_none(out)
    }
}

pub(crate) fn print_measured(
    out: &impl Print,
    err: &impl Print,
    measured: Result<f64, Refusal>,
) -> io::Result<()> {
    match measured {
        Ok(x) => print_double(out, x),
        Err(refusal) => case_answers::print_refusal(out, err, refusal.number()),
    }
}
