// The refusals, in the order of their numbers.
ghost use Rattle.std.specs.Prelude.{◌≡◌};
ghost use Rattle.refusals.specs.Answer.{answer_of, number_of, value_or};
ghost use Rattle.refusals.specs.Refusal.{refusal_number};

use std::fmt;

/// Why a call is refused. Of the causes that are there the least is given, in the order of the variants.
#[derive(Clone, Copy, Debug, PartialEq, Eq, PartialOrd, Ord)]
pub enum Refusal {
    /// A column runs past its pool, or has not as many rows as its table; outputs differ in length.
    Columns,
    /// A table has more rows, or an id more bytes, than its bound.
    Count,
    /// A position is off the globe.
    Position,
    /// The rows of a table do not ascend.
    Order,
    /// An index is outside its table.
    Index,
    /// A moment is outside 1970 to 2099, an offset is over 14 hours, or a schedule second is a week or more.
    Moment,
    /// An id has a byte outside 32 to 126, or is empty where it may not be.
    Text,
    /// A number is NaN, or a distance is not finite.
    Number,
    /// The output has too little room.
    Room,
    /// A number is no date.
    Date,
}

impl Refusal {
    /// The number that C callers get.
    pub fn number(self) -> u32
        ensures { result ≡ refusal_number self }
    {
        match self {
            Refusal::Columns => 1,
            Refusal::Count => 2,
            Refusal::Position => 3,
            Refusal::Order => 4,
            Refusal::Index => 5,
            Refusal::Moment => 6,
            Refusal::Text => 7,
            Refusal::Number => 8,
            Refusal::Room => 9,
            Refusal::Date => 10,
        }
    }
}

impl fmt::Display for Refusal {
    fn fmt<W: fmt::Write>(&self, f: &mut fmt::Formatter<W>) -> fmt::Result {
        match self {
            Refusal::Columns => write!(
                f,
                "a column runs past its pool, or has not as many rows as its table"
            ),
            Refusal::Count => write!(f, "a table has too many rows, or an id too many bytes"),
            Refusal::Position => write!(f, "a position is off the globe"),
            Refusal::Order => write!(f, "the rows of a table do not ascend"),
            Refusal::Index => write!(f, "an index is outside its table"),
            Refusal::Moment => write!(
                f,
                "a moment, an offset or a schedule second is out of its range"
            ),
            Refusal::Text => write!(f, "an id has a byte outside 32 to 126, or is empty"),
            Refusal::Number => write!(f, "a number is NaN, or a distance is not finite"),
            Refusal::Room => write!(f, "the output has too little room"),
            Refusal::Date => write!(f, "a number is no date"),
        }
    }
}

/// The refusal's number, or 0 where there is an answer: what a C name returns.
pub fn number_or_zero<T: Copy>(answer: &Result<T, Refusal>) -> u32
    ensures { result ≡ number_of (answer_of answer.now) }
{
    match answer {
        Ok(_) => 0,
        Err(refusal) => refusal.number(),
    }
}

/// 0 and the value in `out`, or the refusal's number with `out` as it was: what a C name that lends room for a value does.
pub fn told<T: Copy>(answer: Result<T, Refusal>, out: &mut T) -> u32
    ensures value { result ≡ number_of (answer_of answer) }
    ensures out_after { out.new ≡ value_or out.old (answer_of answer) }
{
    match answer {
        Ok(value) => {
            *out = value;
            0
        }
        Err(refusal) => refusal.number(),
    }
}
