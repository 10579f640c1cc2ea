// The estimate's record, and the place beside it.
ghost use Rattle.std.specs.Prelude.{◌≡◌};
ghost use Rattle.voyages.specs.Record.{at_stop, on_leg};

use legs::{Place, Walked};
use lengths::Point;
use paths::Status;

// Where she is, and how that was found.
#[derive(Clone, Copy)]
pub struct Estimate {
    pub lat: f64,
    pub lon: f64,
    // in degrees, where there is one
    pub bearing: Option<f64>,
    pub status: Status,
    // the stop's row in the stops
    pub stop: usize,
    // its stop_sequence
    pub sequence: u32,
}

// An estimate, and the place that its coordinates are drawn from.
#[derive(Clone, Copy)]
pub struct Placed {
    pub estimate: Estimate,
    pub place: Place,
}

// At a stop, which is this call; no bearing.
#[tactic(auto, unfolding(crate::specs::Record::at_stop))]
pub fn at_stop(call: u32, at: Point, status: Status, stop: usize, sequence: u32) -> Placed
    ensures { result ≡ at_stop call at status stop sequence }
{
    let estimate = Estimate {
        lat: at.lat,
        lon: at.lon,
        bearing: None,
        status,
        stop,
        sequence,
    };
    Placed {
        estimate,
        place: Place::Call(call),
    }
}

// On a leg, to this stop.
pub fn on_leg(walked: Walked, status: Status, stop: usize, sequence: u32) -> Placed
    ensures { result ≡ on_leg walked status stop sequence }
{
    let drawn = walked.drawn;
    let estimate = Estimate {
        lat: drawn.lat,
        lon: drawn.lon,
        bearing: Some(drawn.bearing),
        status,
        stop,
        sequence,
    };
    Placed {
        estimate,
        place: walked.place,
    }
}
