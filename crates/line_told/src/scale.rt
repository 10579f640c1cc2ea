// The unit that a ratio is near.
ghost use Rattle.std.specs.Prelude.{◌≡◌};
ghost use Rattle.floats.specs.Number.{nought};
ghost use Rattle.refusals.specs.Answer.{answer_of};
ghost use Rattle.line_told.specs.Told.{scale_told};

use refusals::Refusal;

// `refusal`: document 01's number, or 0. `answered`: 1 with a scale, else 0, and so is the scale.
#[repr(C)]
#[derive(Clone, Copy)]
pub struct ScaleTold {
    pub scale: f64,
    pub answered: u32,
    pub refusal: u32,
}

// No scale: where there is none, or where it is refused.
fn no_scale(refusal: u32) -> ScaleTold
    ensures { result ≡ record { scale = nought; answered = 0; refusal = refusal } }
{
    ScaleTold {
        scale: 0.0,
        answered: 0,
        refusal,
    }
}

pub fn tell_scale(answer: Result<Option<f64>, Refusal>) -> ScaleTold
    ensures { result ≡ scale_told (answer_of answer) }
{
    match answer {
        Ok(Some(scale)) => ScaleTold {
            scale,
            answered: 1,
            refusal: 0,
        },
        Ok(None) => no_scale(0),
        Err(refusal) => no_scale(refusal.number()),
    }
}
