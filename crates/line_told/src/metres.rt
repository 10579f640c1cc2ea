// The metres that samples' distances stand for.
ghost use Rattle.std.specs.Prelude.{◌≡◌};
ghost use Rattle.floats.specs.Number.{nought};
ghost use Rattle.refusals.specs.Answer.{answer_of};
ghost use Rattle.line_told.specs.Told.{metres_told};

use refusals::Refusal;
use unit_scales::Affine;

// A distance d stands for shift + scale·d metres. `refusal`: document 01's number, or 0. `answered`: 1 with a
// calibration, else 0, and so are its numbers.
#[repr(C)]
#[derive(Clone, Copy)]
pub struct MetresTold {
    pub shift: f64,
    pub scale: f64,
    pub answered: u32,
    pub refusal: u32,
}

// No calibration: where there is none, or where it is refused.
fn no_metres(refusal: u32) -> MetresTold
    ensures { result ≡ record { shift = nought; scale = nought; answered = 0; refusal = refusal } }
{
    MetresTold {
        shift: 0.0,
        scale: 0.0,
        answered: 0,
        refusal,
    }
}

pub fn tell_metres(answer: Result<Option<Affine>, Refusal>) -> MetresTold
    ensures { result ≡ metres_told (answer_of answer) }
{
    match answer {
        Ok(Some(f)) => MetresTold {
            shift: f.a,
            scale: f.b,
            answered: 1,
            refusal: 0,
        },
        Ok(None) => no_metres(0),
        Err(refusal) => no_metres(refusal.number()),
    }
}
