// The place beside the estimate.
use float_bits::bits_of_f64;
use legs::Place;
use paths::Line;
use refusals::Refusal;
use std::io;
use voyages::Placed;
use ways::Way;

fn path(line: Line) -> &'static str {
    match line {
        Line::Shape => "shape",
        Line::Chain => "chain",
        Line::Straight => "straight",
    }
}

fn way(way: Way) -> &'static str {
    match way {
        Way::With => "up",
        Way::Against => "down",
    }
}

fn line(out: &impl Print, place: Place) -> io::Result<()> {
    match place {
        Place::Call(k) => println!(out; "(call {k})"),
        Place::Start(k) => println!(out; "(leg {k} start)"),
        Place::End(k) => println!(out; "(leg {k} end)"),
        Place::Stretch(k, line, direction, vertex, t) => {
            let path = path(line);
            let way = way(direction);
            let fraction = bits_of_f64(t);
            println!(out; "(leg {k} {path} {vertex} {way} {fraction:016x})")
        }
        Place::NoStretch(k, line, _) => println!(out; "(leg {k} {} last)", path(line)),
    }
}

// Writes the place of an answer.
pub fn print_place(
    out: &impl Print,
    err: &impl Print,
    answer: Result<Option<Placed>, Refusal>,
) -> io::Result<()> {
    match answer {
        Ok(Some(placed)) => line(out, placed.place),
        Ok(None) => case_answers::print_none(out),
        Err(refusal) => case_answers::print_refusal(out, err, refusal.number()),
    }
}
