// Replays cases through what `board` is made of: cases one after another, each ended by a line `(end)`, the last by the end of the text; one line of answer for each.
// The cases are those of examples/, in the order of their names.
#![tactic(auto)]

use cases::Lines;
use std::io;

fn main(rt: HostRuntime) -> io::Result<()> {
    let mut stdin = rt.stdin();
    let mut chunk = [0; 16384];
    let mut line = [0; 4096];
    let mut lines = Lines::new(&mut chunk, &mut line);
    for _ in 0..u64::MAX {
        if estimate_lines::answer_case(&mut stdin, &mut lines, &rt, &rt.stderr(), b"(end)")?.last {
            break;
        }
    }
    Ok(())
}
