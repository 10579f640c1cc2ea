// Tries the refusals on lent tables: reads a script that tools/faults wrote and prints an answer for each
// question. The file stdout has the answers of document 01, which the gate compares.
//
// The first line of the script lays out a clean world. Each line after it is a case: the clean world is laid out
// again, and the words of the line change it and ask operations of it. A word is a letter and a number, in decimal
// but after `x`:
//   bN wN tN rN dN   the next number goes to place N of the bytes, words, times, reals or dists
//   =N -N xN         that number; after `x` a float's bits in hexadecimal
//   sN nN            a step, and N numbers more of the words, each the last one plus the step
//   iN               N ids of three bytes each, ascending, into the bytes
//   ?N               a question: the first refusal of operation N (ask.rt)
// The words of the world begin with the layout of its tables (crate worlds). A line that is wrong is named on
// standard error, and no line after it is read.
#![tactic(auto)]

mod ask; // ask.rt: the operations, and the answer to a question

use fault_scripts::{Fault, Script};
use input_bytes::read_full;
use std::io;
use worlds::Pools;

fn main(rt: HostRuntime) -> io::Result<()> {
    let mut text = [0u8; 524288];
    let mut bytes = [0u8; 262144];
    let mut words = [0u32; 393216];
    let mut times = [0i64; 4096];
    let mut reals = [0.0f64; 131072];
    let mut dists = [0.0f32; 131072];
    let n = read_full(&mut rt.stdin(), &mut text)?;
    let mut pools = Pools {
        bytes: &mut bytes,
        words: &mut words,
        times: &mut times,
        reals: &mut reals,
        dists: &mut dists,
    };
    replay(&rt, &rt.stderr(), &mut pools, &text[..n])
}

// Answers the script, up to what is wrong in it.
fn replay(
    out: &impl Print,
    err: &impl Print,
    pools: &mut Pools<'_>,
    text: &[u8],
) -> io::Result<()> {
    let mut script = Script::new();
    match cases(out, pools, &mut script, text) {
        Ok(()) => Ok(()),
        Err(Fault::Io(error)) => Err(error),
        Err(fault) => println!(err; "line {}: {fault}", script.line),
    }
}

// Every line. The clean world, which the first line lays out, is laid out again after each.
fn cases(
    out: &impl Print,
    pools: &mut Pools<'_>,
    script: &mut Script,
    text: &[u8],
) -> Result<(), Fault> {
    let clean = text.split(|b| *b == b'\n').next().unwrap_or(text);
    for b in text {
        if *b == b'\n' {
            end_word(out, pools, script)?;
            script.next_line();
            line(out, pools, script, clean)?;
        } else {
            step(out, pools, script, *b)?;
        }
    }
    Ok(())
}

// Does what a line says.
fn line(
    out: &impl Print,
    pools: &mut Pools<'_>,
    script: &mut Script,
    text: &[u8],
) -> Result<(), Fault> {
    for b in text {
        step(out, pools, script, *b)?;
    }
    end_word(out, pools, script)
}

// Reads a byte of a line; a space ends a word.
fn step(out: &impl Print, pools: &mut Pools<'_>, script: &mut Script, b: u8) -> Result<(), Fault> {
    if b == b' ' {
        end_word(out, pools, script)
    } else {
        script.spell(b)
    }
}

// Does what a word says.
fn end_word(out: &impl Print, pools: &mut Pools<'_>, script: &mut Script) -> Result<(), Fault> {
    match script.letter {
        0 => {}
        b'b' | b'w' | b't' | b'r' | b'd' => script.set_place(),
        b'=' | b'-' | b'x' => script.put_one(pools)?,
        b's' => script.set_step(),
        b'n' => script.put_more(pools)?,
        b'i' => script.put_ids(pools)?,
        b'?' => ask::answer(out, pools, script.number)?,
        _ => return Err(Fault::NoWord),
    }
    script.next_word();
    Ok(())
}
