// The answers: a vertex as a number, floats as their bits in hexadecimal, `none` where there is none.
use float_bits::bits_of_f64;
use std::io;
use stretches::Drawn;
use unit_scales::Affine;

pub(crate) fn found(out: &impl Print, vertex: Option<usize>) -> io::Result<()> {
    match vertex {
        Some(k) => println!(out; "{k}"),
        None => println!(out; "none"),
    }
}

pub(crate) fn double(out: &impl Print, x: f64) -> io::Result<()> {
    println!(out; "{:016x}", bits_of_f64(x))
}

pub(crate) fn calibrated(out: &impl Print, answer: Option<Affine>) -> io::Result<()> {
    match answer {
        Some(affine) => {
            println!(out;
                "{:016x} {:016x}",
                bits_of_f64(affine.a),
                bits_of_f64(affine.b)
            )
        }
        None => println!(out; "none"),
    }
}

pub(crate) fn place(out: &impl Print, answer: Option<Drawn>) -> io::Result<()> {
    match answer {
        Some(drawn) => {
            println!(out;
                "{:016x} {:016x} {:016x}",
                bits_of_f64(drawn.lat),
                bits_of_f64(drawn.lon),
                bits_of_f64(drawn.bearing)
            )
        }
        None => println!(out; "none"),
    }
}
