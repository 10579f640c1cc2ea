// The vertices of a trip's stops.
use crate::held::is_set;
use crate::lent::plain_tables;
use case_tables::{Pools, layout, put, span};
use probe_pools::asked;
use std::io;
use tables::{IdRows, LegAsked, Tables};

// (project N): the operation asks by an id, so the trip-id table has one row, which names the trip asked of.
pub fn project(out: &impl Print, err: &impl Print, pools: &mut Pools, trip: u32) -> io::Result<()> {
    put(pools.words, asked::TRIP_ROW, 0, trip);
    let id = asked::plain(1);
    let t = Tables {
        tripkeys: IdRows {
            id,
            row: span(asked::TRIP_ROW, 1),
        },
        ..plain_tables(pools.held)
    };
    let mut vertices = [0u32; 8192];
    match trip_projection::project_trip(&pools.lent(), t, LegAsked { trip: id }, &mut vertices) {
        Ok(n) if is_set(pools, layout::TRIP_SHAPED, trip as usize) => {
            print_vertices(out, &vertices, n)
        }
        Ok(_) => case_answers::print_none(out),
        Err(refusal) => case_answers::print_refusal(out, err, refusal.number()),
    }
}

// The first n.
fn print_vertices(out: &impl Print, vertices: &[u32], n: usize) -> io::Result<()> {
    print!(out; "(vertices")?;
    for vertex in vertices.iter().take(n) {
        match *vertex {
            u32::MAX => print!(out; " -")?,
            k => print!(out; " {k}")?,
        }
    }
    println!(out; ")")
}
