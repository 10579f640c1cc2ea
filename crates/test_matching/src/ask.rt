// The answers.
use ids::Lent;
use refusals::Refusal;
use std::io;
use worlds::Pools;

// Writes the answer of the last row, where the table with the letter asks. Says how many rows the table keeps: a question is asked once.
pub(crate) fn answered(
    out: &impl Print,
    pools: &Pools<'_>,
    letter: u8,
    rows: u32,
) -> io::Result<u32> {
    match letter {
        b'j' => tell_trip(out, matched(pools))?,
        b'v' => tell_running(out, running(pools))?,
        _ => return Ok(rows),
    }
    Ok(0)
}

fn matched(pools: &Pools<'_>) -> Result<Option<usize>, Refusal> {
    timetable::match_trip(
        &whole(pools),
        worlds::tables(pools.words),
        worlds::journey(pools.words),
    )
}

fn running(pools: &Pools<'_>) -> Result<bool, Refusal> {
    service_days::service_runs(
        &whole(pools),
        worlds::tables(pools.words),
        worlds::service(pools.words),
    )
}

fn tell_trip(out: &impl Print, answer: Result<Option<usize>, Refusal>) -> io::Result<()> {
    match answer {
        Ok(Some(trip)) => println!(out; "trip {trip}"),
        Ok(None) => println!(out; "nothing"),
        Err(refusal) => println!(out; "refused {}", refusal.number()),
    }
}

fn tell_running(out: &impl Print, answer: Result<bool, Refusal>) -> io::Result<()> {
    match answer {
        Ok(true) => println!(out; "runs"),
        Ok(false) => println!(out; "rests"),
        Err(refusal) => println!(out; "refused {}", refusal.number()),
    }
}

// All that the pools have, for the operations.
fn whole<'a>(pools: &'a Pools<'_>) -> Lent<'a> {
    Lent {
        bytes: pools.bytes,
        words: pools.words,
        times: pools.times,
        reals: pools.reals,
        dists: pools.dists,
    }
}
