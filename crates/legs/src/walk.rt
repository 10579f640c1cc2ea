// What a walk along a leg gives: the place, the position with bearing, and the status.
ghost use Rattle.std.specs.Prelude.{◌≡◌};
ghost use Rattle.legs.specs.Walk.{end_of, on_path, start_of};

use crate::place::{Place, place_of};
use lengths::Point;
use measure::bearing;
use paths::{Path, Status, path_kind, path_status, path_way};
use stretches::{Drawn, Spot};

#[derive(Clone, Copy)]
pub struct Walked {
    pub place: Place,
    pub drawn: Drawn,
    pub status: Status,
}

// At a leg's start: the stop's own position, towards the leg's end.
pub fn at_start(leg: u32, from: Point, to: Point) -> Walked
    ensures { result ≡ start_of leg from to }
{
    Walked {
        place: Place::Start(leg),
        drawn: Drawn {
            lat: from.lat,
            lon: from.lon,
            bearing: bearing(from.lat, from.lon, to.lat, to.lon),
        },
        status: Status::InTransitTo,
    }
}

// At its end.
pub fn at_end(leg: u32, from: Point, to: Point) -> Walked
    ensures { result ≡ end_of leg from to }
{
    Walked {
        place: Place::End(leg),
        drawn: Drawn {
            lat: to.lat,
            lon: to.lon,
            bearing: bearing(from.lat, from.lon, to.lat, to.lon),
        },
        status: Status::InTransitTo,
    }
}

// At a spot of its path, as it is drawn.
pub fn on_path(leg: u32, path: Path, spot: Spot, drawn: Drawn) -> Walked
    ensures { result ≡ on_path leg path spot drawn }
{
    Walked {
        place: place_of(leg, path_kind(path), path_way(path), spot),
        drawn,
        status: path_status(path),
    }
}
