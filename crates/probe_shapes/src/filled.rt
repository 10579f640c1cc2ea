// The distances of a static trip after backfill.
use crate::held::{first_row, row_count};
use crate::lent::plain_tables;
use case_tables::Pools;
use refusals::Refusal;
use std::io;

// (backfill N)
pub fn backfill(out: &impl Print, err: &impl Print, pools: &Pools, trip: u32) -> io::Result<()> {
    let mut dists = [0.0f32; 8192];
    let mut marks = [0u8; 8192];
    let filled = trip_backfill::backfill_trip(
        &pools.lent(),
        plain_tables(pools.held),
        trip as usize,
        &mut dists,
        &mut marks,
    );
    match of_table(filled, trip < pools.held.trips) {
        Ok(_) => print_dists(
            out,
            &dists,
            &marks,
            first_row(pools, trip),
            row_count(pools, trip),
        ),
        Err(refusal) => case_answers::print_refusal(out, err, refusal.number()),
    }
}

// A trip past the table is refused as an index, where nothing before is refused.
fn of_table(filled: Result<usize, Refusal>, is_there: bool) -> Result<usize, Refusal> {
    if is_there {
        return filled;
    }
    match filled {
        Ok(_) => Err(Refusal::Index),
        Err(refusal) => Err(refusal.min(Refusal::Index)),
    }
}

// n rows from `first` on.
fn print_dists(
    out: &impl Print,
    dists: &[f32],
    marks: &[u8],
    first: u32,
    n: u32,
) -> io::Result<()> {
    print!(out; "(dists")?;
    let rows = dists.iter().zip(marks).skip(first as usize);
    for (dist, mark) in rows.take(n as usize) {
        match *mark {
            0 => print!(out; " -")?,
            _ => {
                let bits = float_bits::bits_of_f32(*dist);
                print!(out; " {bits:08x}")?;
            }
        }
    }
    println!(out; ")")
}
