// The answer to a question.
use refusals::Refusal;
use std::io;
use trip_backfill::{backfill_trip, backfill_trips};
use worlds::Pools;

// All trips where n is 0, and else trip n - 1 alone, of the tables that the words' head lays out.
pub(crate) fn answer(out: &impl Print, pools: &Pools<'_>, n: u64) -> io::Result<()> {
    let mut dist = [0.0f32; 32];
    let mut measured = [0u8; 32];
    match backfilled(pools, n, &mut dist, &mut measured) {
        Ok(rows) => print(out, &dist, &measured, rows)?,
        Err(refusal) => print!(out; "refused {}", refusal.number())?,
    }
    println!(out; "")
}

fn backfilled(
    pools: &Pools<'_>,
    n: u64,
    dist: &mut [f32],
    measured: &mut [u8],
) -> Result<usize, Refusal> {
    let lent = pools.lent();
    let t = worlds::tables(pools.words);
    match n {
        0 => backfill_trips(&lent, t, dist, measured),
        _ => backfill_trip(&lent, t, n as usize - 1, dist, measured),
    }
}

// The bits of so many distances, `-` for one that is missing.
fn print(out: &impl Print, dist: &[f32], measured: &[u8], rows: usize) -> io::Result<()> {
    for (dist, measured) in dist.iter().zip(measured).take(rows) {
        if *measured == 0 {
            print!(out; "- ")?;
        } else {
            print!(out; "{} ", float_bits::bits_of_f32(*dist))?;
        }
    }
    Ok(())
}
