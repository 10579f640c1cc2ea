// Replays a sample of the Rust's backfill: reads worlds and prints the distances of each after backfill. tools/oracle wrote the file stdin, and the file
// stdout from what the Rust answered.
//
// A word of the script is a letter and a number, in decimal but after `x`:
//   bN wN rN dN   the next number goes to place N of the bytes, words, reals or dists
//   =N xN         that number; after `x` a float's bits in hexadecimal
//   ?N            a question: backfill of all trips where N is 0, and else of trip N - 1 alone
// The words of a world begin with the layout of its tables (crate worlds). An answer is a line: the bits of each distance, `-` where it is missing; or `refused N`.
#![tactic(auto)]

mod ask; // ask.rt: the answer to a question
mod script; // script.rt: the script's words

use crate::script::Script;
use fault_scripts::Place;
use input_bytes::read_full;
use std::io;
use worlds::Pools;

fn main(rt: HostRuntime) -> io::Result<()> {
    let mut text = [0u8; 262144];
    let mut bytes = [0u8; 4096];
    let mut words = [0u32; 4096];
    let mut times = [0i64; 1];
    let mut reals = [0.0f64; 4096];
    let mut dists = [0.0f32; 4096];
    let n = read_full(&mut rt.stdin(), &mut text)?;
    let mut pools = Pools {
        bytes: &mut bytes,
        words: &mut words,
        times: &mut times,
        reals: &mut reals,
        dists: &mut dists,
    };
    replay(&rt, &mut pools, &text[..n])
}

// Reads the script; a space or the end of a line ends a word.
fn replay(out: &impl Print, pools: &mut Pools<'_>, text: &[u8]) -> io::Result<()> {
    let mut script = Script::new();
    for b in text {
        match *b {
            b' ' | b'\n' => {
                act(out, pools, &mut script)?;
                script.next_word();
            }
            b => script.spell(b),
        }
    }
    Ok(())
}

// Does what a word says; one that is none, or a number too large, does nothing.
fn act(out: &impl Print, pools: &mut Pools<'_>, script: &mut Script) -> io::Result<()> {
    match script.letter {
        b'b' | b'w' | b'r' | b'd' => {
            script.place = Place {
                pool: script.letter,
                at: script.number as usize,
            };
        }
        b'=' | b'x' => {
            script.place.put(pools, script.number, false);
            script.place.at = script.place.at.wrapping_add(1);
        }
        b'?' => ask::answer(out, pools, script.number)?,
        _ => {}
    }
    Ok(())
}
