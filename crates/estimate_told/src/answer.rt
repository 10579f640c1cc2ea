// An estimate's answer as numbers.
ghost use Rattle.std.specs.Prelude.{◌≡◌};
ghost use Rattle.refusals.specs.Answer.{answer_of};
ghost use Rattle.estimate_told.specs.Told.{status_number, line_number, way_number, place_told, estimate_told, unanswered, told_of};

use legs::Place;
use paths::{Line, Status};
use refusals::Refusal;
use voyages::{Estimate, Placed};
use ways::Way;

// Where an estimate is, by document 01's place. `kind`: 1 at call `number`; 2 at the start of leg `number`; 3 at
// its end; 4 on a stretch of it; 5 at the last vertex of its path, where the target met no stretch. `line`: 1 a
// shape, 2 the stops between, 3 a straight line. `way`: 1 with the vertices, 2 against them. A number that its
// kind does not have is 0.
#[repr(C)]
#[derive(Clone, Copy)]
pub struct PlaceTold {
    pub fraction: f64,
    pub vertex: u64,
    pub kind: u32,
    pub number: u32,
    pub line: u32,
    pub way: u32,
}

// What is told of a place where there is none, and of the numbers that a place does not have.
const NO_PLACE: PlaceTold = PlaceTold {
    fraction: 0.0,
    vertex: 0,
    kind: 0,
    number: 0,
    line: 0,
    way: 0,
};

// `refusal`: document 01's number, or 0. `answered`: 1 with an estimate, 0 in silence and where it is refused. Each
// other number is 0 without an estimate. `status`: 1 stopped at, 2 incoming at, 3 on the shape, 4 on the stop
// chain, 5 in transit to. `bears`: 1 where there is a bearing.
#[repr(C)]
#[derive(Clone, Copy)]
pub struct Told {
    pub lat: f64,
    pub lon: f64,
    pub bearing: f64,
    pub stop: u64,
    pub sequence: u32,
    pub status: u32,
    pub bears: u32,
    pub answered: u32,
    pub refusal: u32,
    pub place: PlaceTold,
}

fn status_number(status: Status) -> u32
    ensures { result ≡ status_number status }
{
    match status {
        Status::StoppedAt => 1,
        Status::IncomingAt => 2,
        Status::OnShape => 3,
        Status::OnStopChain => 4,
        Status::InTransitTo => 5,
    }
}

fn line_number(line: Line) -> u32
    ensures { result ≡ line_number line }
{
    match line {
        Line::Shape => 1,
        Line::Chain => 2,
        Line::Straight => 3,
    }
}

fn way_number(way: Way) -> u32
    ensures { result ≡ way_number way }
{
    match way {
        Way::With => 1,
        Way::Against => 2,
    }
}

fn place_told(place: Place) -> PlaceTold
    ensures { result ≡ place_told place }
{
    match place {
        Place::Call(k) => PlaceTold {
            kind: 1,
            number: k,
            ..NO_PLACE
        },
        Place::Start(k) => PlaceTold {
            kind: 2,
            number: k,
            ..NO_PLACE
        },
        Place::End(k) => PlaceTold {
            kind: 3,
            number: k,
            ..NO_PLACE
        },
        Place::Stretch(k, line, way, vertex, t) => PlaceTold {
            fraction: t,
            vertex: vertex as u64,
            kind: 4,
            number: k,
            line: line_number(line),
            way: way_number(way),
        },
        Place::NoStretch(k, line, way) => PlaceTold {
            kind: 5,
            number: k,
            line: line_number(line),
            way: way_number(way),
            ..NO_PLACE
        },
    }
}

// An estimate and its place.
fn estimate_told(e: Estimate, place: Place) -> Told
    ensures { result ≡ estimate_told e place }
{
    Told {
        lat: e.lat,
        lon: e.lon,
        bearing: e.bearing.unwrap_or(0.0),
        stop: e.stop as u64,
        sequence: e.sequence,
        status: status_number(e.status),
        bears: u32::from(e.bearing.is_some()),
        answered: 1,
        refusal: 0,
        place: place_told(place),
    }
}

// No estimate: silence, or the number of a refusal.
fn unanswered(refusal: u32) -> Told
    ensures { result ≡ unanswered refusal }
{
    Told {
        lat: 0.0,
        lon: 0.0,
        bearing: 0.0,
        stop: 0,
        sequence: 0,
        status: 0,
        bears: 0,
        answered: 0,
        refusal,
        place: NO_PLACE,
    }
}

// The whole answer.
pub fn tell(answer: Result<Option<Placed>, Refusal>) -> Told
    ensures { result ≡ told_of (answer_of answer) }
{
    match answer {
        Ok(Some(placed)) => estimate_told(placed.estimate, placed.place),
        Ok(None) => unanswered(0),
        Err(refusal) => unanswered(refusal.number()),
    }
}
