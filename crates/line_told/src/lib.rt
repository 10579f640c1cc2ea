// Answers about a line and about stops on it as numbers, for C: each is a struct with the refusal's number, or 0 and the answer's own numbers. It calls no operation.
#![tactic(auto)]

mod metres; // metres.rt: the metres that samples' distances stand for
mod position; // position.rt: the position at a fraction
mod scale; // scale.rt: the unit that a ratio is near
mod step; // step.rt: a stop from a cursor on
mod trip; // trip.rt: a trip's stops

pub use metres::{MetresTold, tell_metres};
pub use position::{PositionTold, no_position, tell_position};
pub use scale::{ScaleTold, tell_scale};
pub use step::{StepTold, tell_step};
pub use trip::{RowsTold, tell_rows};
