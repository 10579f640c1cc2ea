// Places along a shape, units, and a trip's calibration.
use crate::held::{first_row, is_set, row_count, word};
use case_tables::{Pools, layout, put, span};
use float_bits::bits_of_f64;
use ids::Span;
use line_questions::Question;
use probe_pools::asked;
use refusals::Refusal;
use std::io;
use stretches::Drawn;
use tables::{Along, Points, Samples};
use unit_scales::Affine;

const NO_ROWS: Span = Span { at: 0, n: 0 };

const NO_POINTS: Points = Points {
    lat: NO_ROWS,
    lon: NO_ROWS,
};

// (snap X)
pub fn snap(out: &impl Print, err: &impl Print, pools: &mut Pools, x: f64) -> io::Result<()> {
    put(pools.reals, asked::NUMBER, 0, x);
    let ratio = Samples {
        line: NO_POINTS,
        at: NO_POINTS,
        dist: NO_ROWS,
        numbers: span(asked::NUMBER, 1),
    };
    match calibrate::snap_unit_scale(&pools.lent(), ratio) {
        Ok(Some(scale)) => println!(out; "{:016x}", bits_of_f64(scale)),
        Ok(None) => case_answers::print_none(out),
        Err(refusal) => case_answers::print_refusal(out, err, refusal.number()),
    }
}

// (along N Y Y X)
pub fn place_along(
    out: &impl Print,
    err: &impl Print,
    pools: &mut Pools,
    shape: u32,
    from: f32,
    to: f32,
    fraction: f64,
) -> io::Result<()> {
    match place(pools, shape, from, to, fraction) {
        Ok(Some(at)) => {
            let lat = bits_of_f64(at.lat);
            let lon = bits_of_f64(at.lon);
            let bearing = bits_of_f64(at.bearing);
            println!(out; "(point {lat:016x} {lon:016x} {bearing:016x})")
        }
        Ok(None) => case_answers::print_none(out),
        Err(refusal) => case_answers::print_refusal(out, err, refusal.number()),
    }
}

// The place at a fraction of the way between two distances on a shape of the case.
fn place(
    pools: &mut Pools,
    shape: u32,
    from: f32,
    to: f32,
    fraction: f64,
) -> Result<Option<Drawn>, Refusal> {
    if pools.held.shapes <= shape {
        return Err(Refusal::Index);
    }
    put(pools.reals, asked::NUMBER, 0, fraction);
    put(pools.dists, asked::PAIR, 0, from);
    put(pools.dists, asked::PAIR, 1, to);
    let along = Along {
        line: line_of(pools, shape),
        ends: NO_POINTS,
        dists: span(asked::PAIR, 2),
        numbers: span(asked::NUMBER, 1),
    };
    interpolate::interpolate(&pools.lent(), Question::ByDistance, along)
}

// The points of a shape. Its rows count from the first point of all shapes.
fn line_of(pools: &Pools, shape: u32) -> Points {
    let shapes = case_tables::tables(pools.held).shapes;
    let rows = trip_rows::shape_span(pools.words, shapes, shape as usize);
    Points {
        lat: span(layout::POINT_LAT.wrapping_add(rows.at), rows.n),
        lon: span(layout::POINT_LON.wrapping_add(rows.at), rows.n),
    }
}

// (calibrate N)
pub fn calibrate_trip(
    out: &impl Print,
    err: &impl Print,
    pools: &mut Pools,
    trip: u32,
) -> io::Result<()> {
    match calibration(pools, trip) {
        Ok(Some(affine)) => {
            let shift = bits_of_f64(affine.a);
            let scale = bits_of_f64(affine.b);
            println!(out; "(affine {shift:016x} {scale:016x})")
        }
        Ok(None) => case_answers::print_none(out),
        Err(refusal) => case_answers::print_refusal(out, err, refusal.number()),
    }
}

// The calibration of a trip of the case by those of its rows that are samples.
fn calibration(pools: &mut Pools, trip: u32) -> Result<Option<Affine>, Refusal> {
    if pools.held.trips <= trip {
        return Err(Refusal::Index);
    }
    let n = put_samples(pools, trip);
    let samples = Samples {
        line: trip_line(pools, trip),
        at: Points {
            lat: span(asked::SAMPLE_LAT, n),
            lon: span(asked::SAMPLE_LON, n),
        },
        dist: span(asked::SAMPLE_DIST, n),
        numbers: NO_ROWS,
    };
    calibrate::shape_dist_affine(&pools.lent(), samples)
}

// The points of a trip's shape, none where it has no shape or one past the table.
fn trip_line(pools: &Pools, trip: u32) -> Points {
    let shape = word(pools, layout::TRIP_SHAPE, trip as usize);
    if is_set(pools, layout::TRIP_SHAPED, trip as usize) && shape < pools.held.shapes {
        line_of(pools, shape)
    } else {
        NO_POINTS
    }
}

// Puts a trip's samples where they are asked of, and says how many there are.
fn put_samples(pools: &mut Pools, trip: u32) -> u32 {
    let first = first_row(pools, trip);
    let mut found: u32 = 0;
    for k in 0..row_count(pools, trip) {
        let row = first as usize + k as usize;
        if let Some(stop) = sampled_stop(pools, row) {
            put_sample(pools, found, row, stop);
            found = found.wrapping_add(1);
        }
    }
    found
}

// The stop of a row of the stop times that is a sample: it has a distance, and its stop a position.
fn sampled_stop(pools: &Pools, row: usize) -> Option<usize> {
    if !is_set(pools, layout::CALL_MEASURED, row) {
        return None;
    }
    let stop = word(pools, layout::CALL_STOP, row);
    if stop < pools.held.stops && is_set(pools, layout::STOP_POSITIONED, stop as usize) {
        Some(stop as usize)
    } else {
        None
    }
}

// Puts the position of a stop and the distance of a row of the stop times as a sample.
fn put_sample(pools: &mut Pools, sample: u32, row: usize, stop: usize) {
    let lat = trip_rows::real(pools.reals, span(layout::STOP_LAT, 0), stop);
    let lon = trip_rows::real(pools.reals, span(layout::STOP_LON, 0), stop);
    let dist = trip_rows::row_or(pools.dists, span(layout::CALL_DIST, 0), row, 0.0);
    put(pools.reals, asked::SAMPLE_LAT, sample, lat);
    put(pools.reals, asked::SAMPLE_LON, sample, lon);
    put(pools.dists, asked::SAMPLE_DIST, sample, dist);
}
