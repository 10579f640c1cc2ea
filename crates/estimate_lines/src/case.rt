// A case of an input and the Board's line for it, on pools of its own. `board` answers one case by it, and `test_board` one after another.
use case_tables::{Case, Pools};
use cases::{Lines, Reading};
use estimate::estimate;
use std::io;
use std::io::Read;

// Writes the line of the case that the pools hold.
fn print_line(out: &impl Print, err: &impl Print, pools: &Pools) -> io::Result<()> {
    let t = case_tables::tables(pools.held);
    let answer = estimate(&pools.lent(), t);
    estimate_words::print_board(out, err, pools, answer)
}

// Reads a case, up to a line `end` or the end of the text, and writes its line.
pub fn answer_case(
    input: &mut impl Read,
    lines: &mut Lines,
    out: &impl Print,
    err: &impl Print,
    end: &[u8],
) -> io::Result<Reading> {
    let mut pools = Pools {
        bytes: &mut [0; 152576],
        words: &mut [0; 114688],
        times: &mut [0; 2056],
        reals: &mut [0.0; 57600],
        dists: &mut [0.0; 16400],
        held: Case::default(),
    };
    // it holds no query
    let read = cases::read(input, lines, &mut [], &mut pools, end)?;
    match read.outcome {
        Ok(()) => print_line(out, err, &pools)?,
        Err(fault) => cases::print_fault(out, err, fault)?,
    }
    Ok(read)
}
