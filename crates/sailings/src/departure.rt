// The first departure of a sailing.
ghost use Rattle.std.specs.Prelude.{◌≡◌};
ghost use Rattle.moments.specs.Moments.{InReach};
ghost use Rattle.sailings.specs.Sailing.{departs, local_at, InTime};

// Whether there is a first departure.
pub(crate) fn has_departure(first: Option<u64>) -> bool
    ensures { result ≡ departs first }
{
    match first {
        Some(_) => true,
        None => false,
    }
}

// The first departure in local time, or 0 where there is none.
pub(crate) fn local(first: Option<u64>, offset: i64) -> i64
    requires in_time { InTime first }
    requires in_reach { InReach (local_at first offset) }
    ensures { result ≡ local_at first offset }
{
    match first {
        Some(x) => x as i64 + offset,
        None => 0,
    }
}
