// Reads one case and writes one line: the estimate, silence or a refusal. docs/CASES.md has the language.
#![tactic(auto)]

use cases::Lines;
use std::io;

fn main(rt: HostRuntime) -> io::Result<()> {
    let mut chunk = [0; 16384];
    let mut line = [0; 4096];
    let mut lines = Lines::new(&mut chunk, &mut line);
    // no line is a newline: the case goes to the end of the text
    estimate_lines::answer_case(&mut rt.stdin(), &mut lines, &rt, &rt.stderr(), b"\n")?;
    Ok(())
}
