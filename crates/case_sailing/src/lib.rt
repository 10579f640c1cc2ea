// The forms of the case language for a sailing's route, cancelling and updates (docs/CASES.md), each a line into the pools that a program lends. As programs, its functions
// are proved safe and ending: what is read shows in what is answered.
#![tactic(auto)]

use case_tables::{Pools, layout, put};
use case_tokens::{closed, field, fields};
use case_words::{Why, token};

// (route ID)
pub fn route(s: &[u8], pools: &mut Pools) -> Result<(), Why> {
    put(pools.bytes, layout::ROUTED, 0, 1);
    token::id(s, 1, pools, layout::ROUTE, 0)
}

// (cancelled)
pub fn cancelled(pools: &mut Pools) {
    put(pools.bytes, layout::CANCELLED, 0, 1);
}

// A time of an update, which a bracket gives.
#[derive(Clone, Copy, Debug, PartialEq, Eq)]
enum Time {
    Arrival,
    Departure,
    ArrivalDelay,
    DepartureDelay,
}

impl Time {
    // In the order of their brackets.
    const ALL: [Time; 4] = [
        Time::Arrival,
        Time::Departure,
        Time::ArrivalDelay,
        Time::DepartureDelay,
    ];

    // What its bracket begins with.
    fn name(self) -> &'static [u8] {
        match self {
            Time::Arrival => b"(arr",
            Time::Departure => b"(dep",
            Time::ArrivalDelay => b"(arr-delay",
            Time::DepartureDelay => b"(dep-delay",
        }
    }

    // What the bracket's token spells.
    fn read(self, token: &[u8]) -> Option<i64> {
        match self {
            Time::Arrival | Time::Departure => case_moments::moment(token),
            Time::ArrivalDelay | Time::DepartureDelay => case_moments::delay(token),
        }
    }

    // The columns of its flags and of its values.
    fn columns(self) -> (u32, u32) {
        match self {
            Time::Arrival => (layout::UPDATE_ARRIVES, layout::UPDATE_ARRIVAL),
            Time::Departure => (layout::UPDATE_DEPARTS, layout::UPDATE_DEPARTURE),
            Time::ArrivalDelay => (layout::UPDATE_ARRIVAL_DELAYED, layout::UPDATE_ARRIVAL_DELAY),
            Time::DepartureDelay => {
                (
                    layout::UPDATE_DEPARTURE_DELAYED,
                    layout::UPDATE_DEPARTURE_DELAY,
                )
            }
        }
    }
}

// The bracket of a time, if it stands at field i, into a row of its columns; the field that follows.
fn bracket(s: &[u8], pools: &mut Pools, time: Time, i: u32, row: u32) -> Result<u32, Why> {
    if field(s, i as usize) != time.name() {
        return Ok(i);
    }
    let next = i.wrapping_add(1);
    let value = closed(field(s, next as usize))
        .and_then(|token| time.read(token))
        .ok_or(Why::Token(next))?;
    let (flags, values) = time.columns();
    put(pools.bytes, flags, row, 1);
    put(pools.times, values, row, value);
    Ok(next.wrapping_add(1))
}

// (update N [ID] [(arr T)] [(dep T)] [(arr-delay D)] [(dep-delay D)])
pub fn update(s: &[u8], pools: &mut Pools, row: u32) -> Result<(), Why> {
    put(
        pools.words,
        layout::UPDATE_SEQUENCE,
        row,
        token::number(s, 1)?,
    );
    let mut i = 2;
    // the stop, if field 2 is there, and no bracket
    if fields(s) >= 3 && !field(s, 2).starts_with(b"(") {
        put(pools.bytes, layout::UPDATE_NAMED, row, 1);
        token::id(s, 2, pools, layout::UPDATE_STOP, row)?;
        i = 3;
    }
    for time in Time::ALL {
        i = bracket(s, pools, time, i, row)?;
    }
    if fields(s) != i as usize {
        return Err(Why::Tokens);
    }
    Ok(())
}
