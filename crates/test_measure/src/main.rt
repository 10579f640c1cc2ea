// Replays a sample of tools/oracle: reads questions from standard input, one to a line, as
// `haversine 4040000000000000 c05e000000000000 4041000000000000 c05f000000000000`, and writes an
// answer for each. The file stdout has the Rust's answers, which the gate compares.
#![tactic(auto)]

use input_bytes::read_full;
use refusals::Refusal;
use std::io;

fn main(rt: HostRuntime) -> io::Result<()> {
    let mut space = [0u8; 65536];
    let n = read_full(&mut rt.stdin(), &mut space)?;
    replay(&rt, &space[..n])
}

// An answer for each line.
fn replay(out: &impl Print, text: &[u8]) -> io::Result<()> {
    for line in text.split_inclusive(|b| *b == b'\n') {
        answer(out, line.strip_suffix(b"\n").unwrap_or(line))?;
    }
    Ok(())
}

// A function's name, and up to four floats after it.
fn answer(out: &impl Print, line: &[u8]) -> io::Result<()> {
    let Some(end) = line.iter().position(|b| *b == b' ') else {
        return println!(out; "no such function");
    };
    let rest = &line[end + 1..];
    let x = float(rest, 0);
    let y = float(rest, 17);
    let z = float(rest, 34);
    let w = float(rest, 51);
    let value = match &line[..end] {
        b"haversine" => return measured(out, measure::haversine_m(x, y, z, w)),
        b"bearing" => return measured(out, measure::bearing_deg(x, y, z, w)),
        b"narrow" => {
            return println!(out; "{:08x}", float_bits::bits_of_f32(float_bits::narrow(x)));
        }
        b"atan2" => arcs::atan2(x, y),
        b"hypot" => maths::hypot(x, y),
        b"max" => ieee::max_of(x, y),
        b"root" => roots::root(x),
        b"sin" => maths::sin(x),
        b"cos" => maths::cos(x),
        b"atan" => arcs::atan(x),
        b"asin" => arcs::asin(x),
        b"radians" => maths::radians(x),
        b"degrees" => maths::degrees(x),
        b"abs" => ieee::abs(x),
        b"clamp01" => ieee::clamp01(x),
        _ => return println!(out; "no such function"),
    };
    double(out, value)
}

// The f64 whose sixteen hexadecimal digits begin at `at`; a digit that is missing counts as 0.
fn float(text: &[u8], at: usize) -> f64 {
    float_bits::f64_of(questions::number(text, at, 16))
}

fn measured(out: &impl Print, measured: Result<f64, Refusal>) -> io::Result<()> {
    match measured {
        Ok(x) => double(out, x),
        Err(refusal) => println!(out; "refused {}", refusal.number()),
    }
}

fn double(out: &impl Print, x: f64) -> io::Result<()> {
    println!(out; "{:016x}", float_bits::bits_of_f64(x))
}
