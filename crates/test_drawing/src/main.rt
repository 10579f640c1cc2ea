// Replays a sample of the Rust's answers: reads worlds and journeys as pools, and writes what is drawn of each. tools/oracle wrote the file stdin, and the
// file stdout from what the Rust answered.
//
// The text is words, each a letter and a number, with a space or a newline after it:
//   bN wN   the next of the bytes, of the words      rN   the next of the reals, its bits in hexadecimal
//   ?0      draws a leg: the first words are the two offsets and the room; the layout of the tables is crate `worlds`'s
//   ?1      draws a journey: the third word is the room; from word 12 on stand the places of its columns
// After a question the pools are empty.
#![tactic(auto)]

mod ask; // ask.rt: what is drawn
mod script; // script.rt: a word of the text

use crate::script::Script;
use input_bytes::read_full;
use std::io;
use worlds::{Pools, put};

// How much is read at a time, and how often.
const CHUNK: usize = 16384;

const CHUNKS: u32 = 64;

fn main(rt: HostRuntime) -> io::Result<()> {
    let mut text = [0u8; CHUNK];
    let mut bytes = [0u8; 1024];
    let mut words = [0u32; 2048];
    let mut times = [0i64; 1];
    let mut reals = [0.0f64; 1024];
    let mut dists = [0.0f32; 64];
    let mut pools = Pools {
        bytes: &mut bytes,
        words: &mut words,
        times: &mut times,
        reals: &mut reals,
        dists: &mut dists,
    };
    let mut script = Script::new();
    for _ in 0..CHUNKS {
        let n = read_full(&mut rt.stdin(), &mut text)?;
        for b in &text[..n] {
            step(&rt, &mut pools, &mut script, *b)?;
        }
    }
    Ok(())
}

// Reads a byte; a space or a newline ends a word.
fn step(out: &impl Print, pools: &mut Pools<'_>, script: &mut Script, b: u8) -> io::Result<()> {
    match b {
        b' ' | b'\n' => {
            act(out, pools, script)?;
            script.next_word();
        }
        _ => script.spell(b),
    }
    Ok(())
}

// Does what a word says. A place that a pool does not have takes nothing.
fn act(out: &impl Print, pools: &mut Pools<'_>, script: &mut Script) -> io::Result<()> {
    let number = script.number;
    match script.letter {
        b'b' => {
            put(pools.bytes, script.bytes, (number % 256) as u8);
            script.bytes = script.bytes.wrapping_add(1);
        }
        b'w' => {
            put(pools.words, script.words, (number % 4294967296) as u32);
            script.words = script.words.wrapping_add(1);
        }
        b'r' => {
            put(pools.reals, script.reals, float_bits::f64_of(number));
            script.reals = script.reals.wrapping_add(1);
        }
        b'?' => {
            ask::answer(out, pools, number)?;
            *script = Script::new();
        }
        _ => {}
    }
    Ok(())
}
