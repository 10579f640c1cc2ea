// A stop from a cursor on.
ghost use Rattle.std.specs.Prelude.{◌≡◌};
ghost use Rattle.refusals.specs.Answer.{answer_of};
ghost use Rattle.line_told.specs.Told.{step_told};

use projection::Step;
use refusals::Refusal;

// `refusal`: document 01's number, or 0. Where it is refused, the next cursor and the vertex are 0.
#[repr(C)]
#[derive(Clone, Copy)]
pub struct StepTold {
    pub cursor: usize,
    pub vertex: usize,
    pub refusal: u32,
}

pub fn tell_step(answer: Result<Step, Refusal>) -> StepTold
    ensures { result ≡ step_told (answer_of answer) }
{
    match answer {
        Ok(step) => StepTold {
            cursor: step.cursor.at,
            vertex: step.vertex,
            refusal: 0,
        },
        Err(refusal) => StepTold {
            cursor: 0,
            vertex: 0,
            refusal: refusal.number(),
        },
    }
}
