// The end of the range.
ghost use Rattle.std.specs.Prelude.{◌≡◌, ◌-◌};
ghost use Rattle.one_trip.specs.One.{one_of};

// Where the one trip ends that is asked of; a number that is no trip's has none.
#[tactic(auto, unfolding(crate::specs::One::one_of))]
pub fn end_of(trip: usize, trips: usize) -> usize
    ensures { result - trip ≡ one_of trip trips }
{
    if trip < trips {
        return trip + 1;
    }
    trip
}
