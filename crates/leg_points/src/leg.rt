// The rows of a leg's trip.
use tables::{StopTimes, Stops};

// The stop times of a trip, `count` of them from row `first` on, and the offsets of a leg's two stops among them.
#[derive(Clone, Copy)]
pub struct LegRows {
    pub stops: Stops,
    pub calls: StopTimes,
    pub first: u32,
    pub count: u32,
    pub from: u32,
    pub to: u32,
}
