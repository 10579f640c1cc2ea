// The operations, and the answer to a question.
use checks::{check_estimate, check_matching, check_service};
use fault_scripts::Fault;
use geometry_checks::{check_calibration, check_geometry, check_interpolation, check_leg};
use refusals::number_or_zero;
use worlds::Pools;

// Prints the first refusal of an operation, or 0 where it has none. Operation 0 is the bound of stop times, which no world here reaches.
pub(crate) fn answer(out: &impl Print, pools: &Pools<'_>, operation: u64) -> Result<(), Fault> {
    let refusal = match first(pools, operation) {
        Some(refusal) => refusal,
        None => return Err(Fault::NoOperation),
    };
    println!(out; "{refusal}")?;
    Ok(())
}

fn first(pools: &Pools<'_>, operation: u64) -> Option<u32> {
    let head: &[u32] = pools.words;
    let lent = pools.lent();
    let b = worlds::bounds(head);
    let t = worlds::tables(head);
    let checked = match operation {
        0 => return Some(b.calls),
        1 => check_estimate(&lent, b, t),
        2 => check_geometry(&lent, b, t),
        3 => check_leg(&lent, b, t, worlds::leg(head)),
        4 => check_matching(&lent, b, t, worlds::journey(head)),
        5 => check_service(&lent, b, t, worlds::service(head)),
        6 => check_interpolation(&lent, b, worlds::along(head)),
        7 => check_calibration(&lent, b, worlds::samples(head)),
        _ => return None,
    };
    Some(number_or_zero(&checked))
}
