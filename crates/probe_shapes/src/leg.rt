// The points of a leg.
use crate::lent::plain_tables;
use case_tables::Pools;
use case_tokens::field;
use float_bits::bits_of_f64;
use point_columns::Sheet;
use probe_pools::asked;
use std::io;
use tables::LegAsked;

// (leg ID N N)
pub fn draw_leg(
    out: &impl Print,
    err: &impl Print,
    s: &[u8],
    pools: &mut Pools,
    from: u32,
    to: u32,
) -> io::Result<()> {
    asked::put_id(pools, asked::TRIP_BYTES, asked::TRIP, field(s, 1));
    let leg = LegAsked {
        trip: asked::TRIP.column(1),
    };
    let mut lat = [0.0f64; 8192];
    let mut lon = [0.0f64; 8192];
    let mut sheet = Sheet {
        lat: &mut lat,
        lon: &mut lon,
    };
    let drawn = leg_drawing::leg_geometry(
        &pools.lent(),
        plain_tables(pools.held),
        leg,
        from,
        to,
        &mut sheet,
    );
    match drawn {
        Ok(n) => print_points(out, &lat, &lon, n),
        Err(refusal) => case_answers::print_refusal(out, err, refusal.number()),
    }
}

// The first n.
fn print_points(out: &impl Print, lat: &[f64], lon: &[f64], n: usize) -> io::Result<()> {
    print!(out; "(points {n}")?;
    for (lat, lon) in lat.iter().zip(lon).take(n) {
        let lat = bits_of_f64(*lat);
        let lon = bits_of_f64(*lon);
        print!(out; " {lat:016x} {lon:016x}")?;
    }
    println!(out; ")")
}
