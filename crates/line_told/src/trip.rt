// A trip's stops.
ghost use Rattle.std.specs.Prelude.{◌≡◌};
ghost use Rattle.refusals.specs.Answer.{answer_of};
ghost use Rattle.line_told.specs.Told.{rows_told};

use refusals::{Refusal, told};

// `refusal`: document 01's number, or 0. `rows`: how many rows of the output are written; 0 where it is refused.
#[repr(C)]
#[derive(Clone, Copy)]
pub struct RowsTold {
    pub rows: usize,
    pub refusal: u32,
}

pub fn tell_rows(answer: Result<usize, Refusal>) -> RowsTold
    ensures { result ≡ rows_told (answer_of answer) }
{
    let mut rows = 0;
    let refusal = told(answer, &mut rows);
    RowsTold { rows, refusal }
}
