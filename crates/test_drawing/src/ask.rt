// What is drawn, and the answer as it is written.
use ids::Lent;
use journey_rules::JourneyLegs;
use point_columns::Sheet;
use refusals::Refusal;
use std::io;
use worlds::{Pools, points, span};

// The most points that are drawn.
const ROOM: usize = 1024;

// Draws a leg, or a journey, and writes the answer.
pub(crate) fn answer(out: &impl Print, pools: &Pools<'_>, n: u64) -> io::Result<()> {
    let mut lat = [0.0f64; ROOM];
    let mut lon = [0.0f64; ROOM];
    let room = ids::word(pools.words, 2) as usize;
    if ROOM < room {
        return Ok(());
    }
    let mut sheet = Sheet {
        lat: &mut lat[..room],
        lon: &mut lon[..room],
    };
    let drawn = match n {
        0 => leg(pools, &mut sheet),
        _ => journey(pools, &mut sheet),
    };
    tell(out, &lat, &lon, drawn)
}

fn leg(pools: &Pools<'_>, sheet: &mut Sheet) -> Result<usize, Refusal> {
    leg_drawing::leg_geometry(
        &whole(pools),
        worlds::tables(pools.words),
        worlds::leg(pools.words),
        ids::word(pools.words, 0),
        ids::word(pools.words, 1),
        sheet,
    )
}

fn journey(pools: &Pools<'_>, sheet: &mut Sheet) -> Result<usize, Refusal> {
    let words: &[u32] = pools.words;
    let legs = JourneyLegs {
        walk: span(words, 0),
        first: span(words, 1),
        count: span(words, 2),
        start: points(words, 3),
        started: span(words, 5),
        end: points(words, 6),
        ended: span(words, 8),
        points: points(words, 9),
    };
    journeys::journey_geometry(&whole(pools), legs, sheet)
}

// Writes how many points there are, and the bits of each; or the number of the refusal.
fn tell(
    out: &impl Print,
    lat: &[f64],
    lon: &[f64],
    drawn: Result<usize, Refusal>,
) -> io::Result<()> {
    match drawn {
        Ok(points) => {
            print!(out; "points {points}")?;
            for (lat, lon) in lat.iter().zip(lon).take(points) {
                let lat = float_bits::bits_of_f64(*lat);
                let lon = float_bits::bits_of_f64(*lon);
                print!(out; " {lat:016x} {lon:016x}")?;
            }
        }
        Err(refusal) => {
            let number = refusal.number();
            print!(out; "refused {number}")?;
        }
    }
    println!(out; "")
}

// All that the pools have, for the operations.
fn whole<'a>(pools: &'a Pools<'_>) -> Lent<'a> {
    Lent {
        bytes: pools.bytes,
        words: pools.words,
        times: pools.times,
        reals: pools.reals,
        dists: pools.dists,
    }
}
