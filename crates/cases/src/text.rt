// The lines of a case.
use crate::lines::Lines;
use case_answers::Fault;
use case_forms::read_form;
use case_kept::kept;
use case_queries::query_of;
use case_tables::{Case, Pools};
use case_tokens::{field, inside};
use case_words::{Form, Why};
use std::io;
use std::io::Read;

// A case that is read: what keeps it from being one, and whether the text is over too.
#[derive(Clone, Copy, Debug, PartialEq, Eq)]
pub struct Reading {
    pub outcome: Result<(), Fault>,
    pub last: bool,
}

// More lines than any text has.
const LINES: u64 = u64::MAX;

// Reads a form into the pools, or a query into `queries`, of what stands between the line's parentheses.
fn read_words(
    s: &[u8],
    form: Option<Form>,
    queries: &mut [u8],
    pools: &mut Pools,
) -> Result<(), Why> {
    match form {
        Some(form) => read_form(s, pools, form),
        None => {
            query_of(s).ok_or(Why::Name)?;
            kept(s, queries, &mut pools.held)
        }
    }
}

// Reads the line of this number, where it is no longer than a line may be.
fn read_line(
    text: Option<&[u8]>,
    line: u64,
    queries: &mut [u8],
    pools: &mut Pools,
) -> Result<(), Fault> {
    let unnamed = |why| Fault {
        line,
        form: None,
        why,
    };
    let text = text.ok_or(unnamed(Why::Long))?;
    let s = inside(text).ok_or(unnamed(Why::Name))?;
    let form = Form::named(field(s, 0));
    read_words(s, form, queries, pools).map_err(|why| Fault { line, form, why })
}

// A case has a feed, a trip and a clock.
fn lacks(held: &Case) -> Result<(), Why> {
    if held.feeds == 0 {
        return Err(Why::NoFeed);
    }
    if held.keys == 0 {
        return Err(Why::NoTrip);
    }
    if held.nows == 0 {
        return Err(Why::NoNow);
    }
    Ok(())
}

// Reads a case, up to a line `end` or the end of the text, into pools that hold none. After a line that is no form, lines are passed over.
pub fn read(
    input: &mut impl Read,
    lines: &mut Lines,
    queries: &mut [u8],
    pools: &mut Pools,
    end: &[u8],
) -> io::Result<Reading> {
    let mut outcome = Ok(());
    for line in 0..LINES {
        let taken = lines.next_line(input)?;
        let text = lines.line(taken.unwrap_or(0));
        if taken.is_none() || text == Some(end) {
            let unnamed = |why| Fault {
                line,
                form: None,
                why,
            };
            return Ok(Reading {
                outcome: outcome.and_then(|()| lacks(&pools.held).map_err(unnamed)),
                last: taken.is_none(),
            });
        }
        if outcome.is_ok() {
            outcome = read_line(text, line + 1, queries, pools);
        }
    }
    Ok(Reading {
        outcome: Err(Fault {
            line: LINES,
            form: None,
            why: Why::Endless,
        }),
        last: false,
    })
}
