// Which call or leg the clock falls to: the loops of parts 1 and 2 of the Rust's `estimate_vehicle_pos`. Calls are
// counted from 0. The column of arrivals says how many there are; a departure past its column's end is read as 0.
ghost use Rattle.std.specs.Prelude.{◌≡◌, length, ◌-◌};
ghost use Rattle.ids.specs.First.{first};
ghost use Rattle.timeline.specs.Turn.{time_at, during, alongside, under_way, edge_of, turn_of};

#[derive(Clone, Copy)]
pub enum Turn {
    // Alongside this call.
    At(usize),
    // On the leg from this call to the next.
    Between(usize),
    // Towards the first call; with a single call also after it.
    Towards,
    // After the last call.
    After,
}

// Moment k of a column, or 0 past its end.
pub fn moment(column: &[u64], k: usize) -> u64
    ensures { result ≡ time_at column.now k }
{
    match column.get(k) {
        Some(moment) => *moment,
        None => 0,
    }
}

// Whether the clock is between two moments, both included.
#[tactic(auto, unfolding(crate::specs::Turn::during))]
fn within(clock: u64, from: u64, to: u64) -> bool
    ensures { result ≡ during clock from to }
{
    from <= clock && clock <= to
}

// The first call that the clock is alongside of.
#[tactic(auto, using(ids::proofs::Search::first_miss))]
fn call_at(arrivals: &[u64], departures: &[u64], clock: u64) -> Option<usize>
    ensures { result ≡ first (alongside clock arrivals.now departures.now) (length arrivals.now) }
{
    for k in 0..arrivals.len() {
        let from = moment(arrivals, k);
        let to = moment(departures, k);
        if within(clock, from, to) {
            return Some(k);
        }
    }
    None
}

// The first call with the clock between its departure and the next call's arrival.
#[tactic(auto, using(ids::proofs::Search::first_miss))]
fn leg_at(arrivals: &[u64], departures: &[u64], clock: u64) -> Option<usize>
    ensures { result ≡ first (under_way clock arrivals.now departures.now) (length arrivals.now - 1) }
{
    for k in 0..arrivals.len().saturating_sub(1) {
        let from = moment(departures, k);
        let to = moment(arrivals, k + 1);
        if within(clock, from, to) {
            return Some(k);
        }
    }
    None
}

// Before the first call or after the last: a single call is always sailed to.
fn edge(arrivals: &[u64], clock: u64) -> Turn
    ensures { result ≡ edge_of clock arrivals.now }
{
    if arrivals.len() < 2 {
        return Turn::Towards;
    }
    if clock < moment(arrivals, 0) {
        return Turn::Towards;
    }
    Turn::After
}

pub fn turn_of(arrivals: &[u64], departures: &[u64], clock: u64) -> Turn
    ensures { result ≡ turn_of clock arrivals.now departures.now }
{
    let call = call_at(arrivals, departures, clock);
    if let Some(k) = call {
        return Turn::At(k);
    }
    let leg = leg_at(arrivals, departures, clock);
    if let Some(k) = leg {
        return Turn::Between(k);
    }
    edge(arrivals, clock)
}
