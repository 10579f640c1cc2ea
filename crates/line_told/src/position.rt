// The position at a fraction.
ghost use Rattle.std.specs.Prelude.{◌≡◌};
ghost use Rattle.refusals.specs.Answer.{answer_of};
ghost use Rattle.line_told.specs.Told.{no_position, position_told};

use refusals::Refusal;
use stretches::Drawn;

// `refusal`: document 01's number, or 0. `answered`: 1 with a position, else 0, and so are its numbers.
#[repr(C)]
#[derive(Clone, Copy)]
pub struct PositionTold {
    pub lat: f64,
    pub lon: f64,
    pub bearing: f64,
    pub answered: u32,
    pub refusal: u32,
}

// No position: where there is none, or where it is refused.
pub fn no_position(refusal: u32) -> PositionTold
    ensures { result ≡ no_position refusal }
{
    PositionTold {
        lat: 0.0,
        lon: 0.0,
        bearing: 0.0,
        answered: 0,
        refusal,
    }
}

pub fn tell_position(answer: Result<Option<Drawn>, Refusal>) -> PositionTold
    ensures { result ≡ position_told (answer_of answer) }
{
    match answer {
        Ok(Some(d)) => PositionTold {
            lat: d.lat,
            lon: d.lon,
            bearing: d.bearing,
            answered: 1,
            refusal: 0,
        },
        Ok(None) => no_position(0),
        Err(refusal) => no_position(refusal.number()),
    }
}
