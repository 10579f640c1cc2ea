// What the programs write of a case beside what they are asked for (docs/CASES.md): ids, that there is no answer, a refusal, and on standard error what was wrong. As
// programs, its functions are proved safe and ending.
#![tactic(auto)]

use case_words::{Form, Why};
use std::{fmt, io};

// A line that is no form, or the last of a text that is no case.
#[derive(Clone, Copy, Debug, PartialEq, Eq)]
pub struct Fault {
    pub line: u64,
    // the form that the line names; a query, or no form, has none
    pub form: Option<Form>,
    pub why: Why,
}

impl fmt::Display for Fault {
    fn fmt<W: fmt::Write>(&self, f: &mut fmt::Formatter<W>) -> fmt::Result {
        let line = self.line;
        let why = self.why;
        match self.form {
            Some(form) => write!(f, "line {line}: {form}: {why}"),
            None => write!(f, "line {line}: {why}"),
        }
    }
}

pub fn print_none(out: &impl Print) -> io::Result<()> {
    println!(out; "(none)")
}

// A refusal; then, to standard error, what it is given for: so who closes that still gets the number.
pub fn print_refusal(out: &impl Print, err: &impl Print, number: u32) -> io::Result<()> {
    println!(out; "(refused {number})")?;
    match cause(number) {
        Some(cause) => println!(err; "refused {number}: {cause}"),
        None => Ok(()),
    }
}

// Refusal 11, for a line that is no form or a text that is no case: its cause goes to standard error.
pub fn print_fault(out: &impl Print, err: &impl Print, fault: Fault) -> io::Result<()> {
    print_refusal(out, err, 11)?;
    println!(err; "{fault}")
}

// What a refusal of what is lent is given for; that of 11 is said by its line.
fn cause(number: u32) -> Option<&'static str> {
    match number {
        1 => Some("columns of one table have unequal lengths"),
        2 => Some("a count or an id is over its bound"),
        3 => Some("a position is off the globe, or not a number"),
        4 => Some("ids of a table, or sequences of updates, do not ascend"),
        5 => Some("an index, or a range of rows, is outside its table"),
        6 => Some("a moment, the offset or a schedule second is out of bounds"),
        7 => Some("an id has a byte outside 32..126, or is empty"),
        8 => Some("a distance is not finite, or a number is NaN"),
        9 => Some("an output is too short"),
        10 => Some("a date is not one"),
        _ => None,
    }
}

// An id as a case has it. Its bytes need not be UTF-8, so they are written as they are, and not as a `Display`.
pub fn print_id(out: &impl Print, id: &[u8]) -> io::Result<()> {
    if id.is_empty() {
        return out.write_all(b"%");
    }
    for b in id {
        if case_ids::is_plain(*b) {
            out.write_all(&[*b])?;
        } else {
            out.write_all(&case_digits::escape(*b))?;
        }
    }
    Ok(())
}
