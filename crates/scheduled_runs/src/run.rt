// The seconds that a trip's schedule has between two sequences: the Rust's `scheduled_run_secs`, with the 120 that its caller takes where it has none.
ghost use Rattle.std.specs.Prelude.{◌≡◌, ◌-◌, max};
ghost use Rattle.scheduled_runs.specs.Run.{departure_of, run_between, run_of};

use crate::sequence::last_with;
use ids::cell;
use tables::{StopTimes, Trips};

// The seconds from a departure to an arrival, 30 at least.
fn span(arrival: u32, departure: u32) -> u32
    ensures { result ≡ max (arrival - departure) 30 }
{
    arrival.saturating_sub(departure).max(30)
}

// The departure of a row, or 0.
fn departure(words: &[u32], times: StopTimes, row: Option<usize>) -> u32
    ensures { result ≡ departure_of words.now times row }
{
    match row {
        Some(row) => cell(words, times.departure, row),
        None => 0,
    }
}

// From the one row's departure to the other's arrival; 120 where there is no arrival.
fn between(words: &[u32], times: StopTimes, arrives: Option<usize>, departs: Option<usize>) -> u32
    ensures { result ≡ run_between words.now times arrives departs }
{
    let Some(row) = arrives else {
        return 120;
    };
    span(
        cell(words, times.arrival, row),
        departure(words, times, departs),
    )
}

// From one sequence of the trip to another; each is the last row that has it.
pub fn run_seconds(
    words: &[u32],
    trips: Trips,
    times: StopTimes,
    trip: Option<usize>,
    from: u32,
    to: u32,
) -> u32
    ensures { result ≡ run_of words.now trips times trip from to }
{
    let Some(trip) = trip else {
        return 120;
    };
    let firsts = trips.first;
    let counts = trips.count;
    let first = cell(words, firsts, trip);
    let n = cell(words, counts, trip);
    let end = first as usize + n as usize;
    let arrives = last_with(words, times, to, first, end);
    let departs = last_with(words, times, from, first, end);
    between(words, times, arrives, departs)
}
