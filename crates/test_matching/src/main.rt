// Replays a sample of the Rust's answers: reads worlds and what is asked of them, and writes an answer for each question. tools/oracle wrote the file
// stdin, and the file stdout from what the Rust answered.
//
// A line is a row of a table: the table's letter, then the fields in the order of the columns, each after a tab (rows.rt):
//   t trips   k trip ids   c stop times   a aliases   l lines   f calendars   r ranges   e exceptions   j the journey   v the service
// The last two are questions. An empty line ends a world.
#![tactic(auto)]

mod ask; // ask.rt: the answers
mod put; // put.rt: numbers and ids into pools
mod rows; // rows.rt: a line's fields, and where each goes

use crate::rows::Row;
use input_bytes::read_full;
use std::io;
use worlds::Pools;

// How much is read at a time, and how often.
const CHUNK: usize = 16384;

const CHUNKS: u32 = 64;

fn main(rt: HostRuntime) -> io::Result<()> {
    let mut text = [0u8; CHUNK];
    let mut bytes = [0u8; 16384];
    let mut words = [0u32; 8192];
    let mut times = [0i64; 8192];
    let mut reals = [0.0f64; 1];
    let mut dists = [0.0f32; 8192];
    let mut pools = Pools {
        bytes: &mut bytes,
        words: &mut words,
        times: &mut times,
        reals: &mut reals,
        dists: &mut dists,
    };
    let mut row = Row::new(put::IDS);
    for _ in 0..CHUNKS {
        let n = read_full(&mut rt.stdin(), &mut text)?;
        for b in &text[..n] {
            step(&rt, &mut pools, &mut row, *b)?;
        }
    }
    Ok(())
}

// Reads a byte.
fn step(out: &impl Print, pools: &mut Pools<'_>, row: &mut Row, b: u8) -> io::Result<()> {
    if b == b'\n' {
        return line_end(out, pools, row);
    }
    if row.letter == 0 {
        let first = rows::first_column(b);
        row.begin(b, first, put::count(pools.words, first));
    } else if b == b'\t' {
        field_end(pools, row);
    } else if row.is_id() {
        put::byte(pools.bytes, row.end, b);
        row.lengthen();
    } else {
        row.add_digit(b);
    }
    Ok(())
}

// Puts the field that was read, and goes on to the next.
fn field_end(pools: &mut Pools<'_>, row: &mut Row) {
    if row.inside {
        put::field(pools, *row);
    }
    row.next_field();
}

// After a row: counts it, and answers it where it is a question. After an empty line: forgets all rows.
fn line_end(out: &impl Print, pools: &mut Pools<'_>, row: &mut Row) -> io::Result<()> {
    if row.letter == 0 {
        put::counts(pools.words, 0, put::COLUMNS, 0);
        *row = Row::new(put::IDS);
        return Ok(());
    }
    field_end(pools, row);
    let rows = row.row.wrapping_add(1);
    put::counts(pools.words, row.first, row.column, rows);
    let left = ask::answered(out, pools, row.letter, rows)?;
    put::counts(pools.words, row.first, row.column, left);
    *row = Row::new(row.end);
    Ok(())
}
