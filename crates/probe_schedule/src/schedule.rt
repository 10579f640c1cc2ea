// Dates, services and matching.
use case_tables::{Case, Pools, layout, put, span};
use case_tokens::field;
use ids::{IdColumn, Lent};
use probe_pools::asked;
use refusals::Refusal;
use std::io;
use tables::{Journey, Service, StopTimes, Tables};

// (date N)
pub fn date(out: &impl Print, err: &impl Print, n: u32) -> io::Result<()> {
    match days::read_date(n) {
        Some(day) => println!(out; "(day {day} {})", day_counts::weekday(day)),
        None => case_answers::print_refusal(out, err, Refusal::Date.number()),
    }
}

fn asked_service() -> Service {
    Service {
        feed: asked::FEED.column(1),
        service: asked::SERVICE.column(1),
        date: span(asked::DATE, 1),
    }
}

fn put_service(s: &[u8], pools: &mut Pools, date: u32) {
    asked::put_id(pools, asked::FEED_BYTES, asked::FEED, field(s, 1));
    asked::put_id(pools, asked::SERVICE_BYTES, asked::SERVICE, field(s, 2));
    put(pools.words, asked::DATE, 0, date);
}

// (runs ID ID N)
pub fn runs(
    out: &impl Print,
    err: &impl Print,
    s: &[u8],
    pools: &mut Pools,
    date: u32,
) -> io::Result<()> {
    put_service(s, pools, date);
    let t = case_tables::tables(pools.held);
    match service_days::service_runs(&pools.lent(), t, asked_service()) {
        Ok(true) => println!(out; "(yes)"),
        Ok(false) => println!(out; "(no)"),
        Err(refusal) => case_answers::print_refusal(out, err, refusal.number()),
    }
}

fn time_at(times: &[i64], column: u32, row: u32) -> i64 {
    let at = column as usize + row as usize;
    times.get(at).copied().unwrap_or(0)
}

fn flag_at(bytes: &[u8], column: u32, row: u32) -> bool {
    let at = column as usize + row as usize;
    bytes.get(at).copied().unwrap_or(0) != 0
}

// A time of an update, where it has one.
fn given_at(lent: &Lent, flags: u32, column: u32, row: u32) -> Option<i64> {
    if flag_at(lent.bytes, flags, row) {
        return Some(time_at(lent.times, column, row));
    }
    None
}

// The departure of an update, else its arrival.
fn departure(lent: &Lent, row: u32) -> Option<i64> {
    let departs = given_at(lent, layout::UPDATE_DEPARTS, layout::UPDATE_DEPARTURE, row);
    departs.or(given_at(lent, layout::UPDATE_ARRIVES, layout::UPDATE_ARRIVAL, row))
}

fn sooner(a: Option<i64>, b: Option<i64>) -> Option<i64> {
    match (a, b) {
        (Some(x), Some(y)) => Some(x.min(y)),
        _ => a.or(b),
    }
}

// The least over n updates.
fn first_departure(lent: &Lent, n: u32) -> Option<i64> {
    let mut first = None;
    for row in 0..n {
        first = sooner(first, departure(lent, row));
    }
    first
}

// Puts the first departure where it is asked of.
fn put_departure(pools: &mut Pools, first: Option<i64>) {
    put(pools.bytes, asked::DEPARTS, 0, first.is_some() as u8);
    if let Some(time) = first {
        put(pools.times, asked::DEPARTURE, 0, time);
    }
}

// How long the trip key is before its last `@`.
fn base_length(lent: &Lent) -> u32 {
    let key = ids::id(lent, layout::KEY.column(1), 0);
    key_parts::base(key).len().min(255) as u32
}

fn asked_journey() -> Journey {
    Journey {
        key: IdColumn {
            starts: span(layout::KEY.at, 1),
            lens: span(asked::KEY_LENGTH, 1),
        },
        route: layout::ROUTE.column(1),
        routed: span(layout::ROUTED, 1),
        departure: span(asked::DEPARTURE, 1),
        departs: span(asked::DEPARTS, 1),
        offset: span(layout::OFFSET, 1),
    }
}

// Puts what matching is asked of.
fn put_journey(pools: &mut Pools) {
    let updates = pools.held.updates;
    let lent = pools.lent();
    let base = base_length(&lent);
    let first = first_departure(&lent, updates);
    put(pools.words, asked::KEY_LENGTH, 0, base);
    put_departure(pools, first);
}

// Stop times of which only the departures are lent: they stand for the arrivals too.
fn departures(times: StopTimes) -> StopTimes {
    StopTimes {
        arrival: times.departure,
        ..times
    }
}

fn asked_tables(c: Case) -> Tables {
    let t = case_tables::tables(c);
    Tables {
        times: departures(t.times),
        ..t
    }
}

// (match)
pub fn match_journey(out: &impl Print, err: &impl Print, pools: &mut Pools) -> io::Result<()> {
    put_journey(pools);
    let t = asked_tables(pools.held);
    match timetable::match_trip(&pools.lent(), t, asked_journey()) {
        Ok(Some(trip)) => println!(out; "(trip {trip})"),
        Ok(None) => case_answers::print_none(out),
        Err(refusal) => case_answers::print_refusal(out, err, refusal.number()),
    }
}
