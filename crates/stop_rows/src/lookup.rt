// The tables that a stop is looked up in.
ghost use Rattle.std.specs.Prelude.{◌≡◌};
ghost use Rattle.stop_rows.specs.Rows.{is_positioned, if_positioned};

use tables::{IdRows, StopTimes, Stops, Trips};

#[derive(Clone, Copy)]
pub struct Lookup {
    pub stops: Stops,
    pub stopkeys: IdRows,
    pub trips: Trips,
    pub tripkeys: IdRows,
    pub times: StopTimes,
}

// Whether a stop has a position.
#[tactic(auto, unfolding(crate::specs::Rows::is_positioned))]
pub(crate) fn is_positioned(bytes: &[u8], stops: Stops, stop: usize) -> bool
    ensures { result ≡ is_positioned bytes.now stops stop }
{
    let positioned = stops.positioned;
    columns::bit(bytes, positioned, stop) != 0
}

// The stop, if it has a position.
pub fn if_positioned(bytes: &[u8], stops: Stops, stop: usize) -> Option<usize>
    ensures { result ≡ if_positioned bytes.now stops stop }
{
    if is_positioned(bytes, stops, stop) {
        return Some(stop);
    }
    None
}
