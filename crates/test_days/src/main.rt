// Reads lines of eight digits, and writes each date's day and weekday, or its refusal. The answers
// that it is held to were made with Python's datetime.
#![tactic(auto)]

use input_bytes::read_full;
use std::io;

fn main(rt: HostRuntime) -> io::Result<()> {
    let mut input = [0u8; 16384];
    let n = read_full(&mut rt.stdin(), &mut input)?;
    let mut date: u32 = 0;
    for b in &input[..n] {
        if *b == b'\n' {
            answer(&rt, date)?;
            date = 0;
        } else {
            date = date % 10000000 * 10 + (*b % 16) as u32;
        }
    }
    Ok(())
}

fn answer(out: &impl Print, date: u32) -> io::Result<()> {
    match days::read_date(date) {
        Some(day) => println!(out; "{day} {}", day_counts::weekday(day)),
        None => println!(out; "refused 10"),
    }
}
