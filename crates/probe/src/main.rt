// Answers the queries of a case, one line each, in their order: reads the whole case, then answers each query from it. docs/CASES.md has the language.
#![tactic(auto)]

mod answer; // answer.rt: each line of queries

use crate::answer::answer_all;
use case_tables::{Case, Pools};
use cases::Lines;
use std::io;

fn main(rt: HostRuntime) -> io::Result<()> {
    let mut chunk = [0; 16384];
    let mut line = [0; 4096];
    let mut lines = Lines::new(&mut chunk, &mut line);
    let mut queries = [0; 65536];
    let mut pools = Pools {
        bytes: &mut [0; 152576],
        words: &mut [0; 114688],
        times: &mut [0; 2056],
        reals: &mut [0.0; 57600],
        dists: &mut [0.0; 16400],
        held: Case::default(),
    };
    // no line is a newline: the case goes to the end of the text
    let read = cases::read(&mut rt.stdin(), &mut lines, &mut queries, &mut pools, b"\n")?;
    match read.outcome {
        Ok(()) => answer_all(&rt, &rt.stderr(), &queries, &mut pools),
        Err(fault) => cases::print_fault(&rt, &rt.stderr(), fault),
    }
}
