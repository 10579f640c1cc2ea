// The Board's line: the estimate, silence or a refusal.
use case_tables::{Pools, layout};
use float_bits::bits_of_f64;
use paths::Status;
use refusals::Refusal;
use std::io;
use voyages::{Estimate, Placed};

// A status, as the Rust names it.
fn status(status: Status) -> &'static str {
    match status {
        Status::StoppedAt => "ESTIMATED_STOPPED_AT",
        Status::IncomingAt => "ESTIMATED_INCOMING_AT",
        Status::OnShape => "ESTIMATED_ON_SHAPE",
        Status::OnStopChain => "ESTIMATED_ON_STOP_CHAIN",
        Status::InTransitTo => "ESTIMATED_IN_TRANSIT_TO",
    }
}

fn line(out: &impl Print, pools: &Pools, e: Estimate) -> io::Result<()> {
    let own = layout::STOP_OWN.column(pools.held.stops);
    let status = status(e.status);
    let lat = bits_of_f64(e.lat);
    let lon = bits_of_f64(e.lon);
    print!(out; "(at {} ", e.sequence)?;
    case_answers::print_id(out, ids::id(&pools.lent(), own, e.stop))?;
    print!(out; " {status} {lat:016x} {lon:016x} ")?;
    match e.bearing {
        Some(bearing) => println!(out; "{:016x})", bits_of_f64(bearing)),
        None => println!(out; "-)"),
    }
}

// Writes the line of an answer; the pools hold the id of its stop.
pub fn print_board(
    out: &impl Print,
    err: &impl Print,
    pools: &Pools,
    answer: Result<Option<Placed>, Refusal>,
) -> io::Result<()> {
    match answer {
        Ok(Some(placed)) => line(out, pools, placed.estimate),
        Ok(None) => case_answers::print_none(out),
        Err(refusal) => case_answers::print_refusal(out, err, refusal.number()),
    }
}
