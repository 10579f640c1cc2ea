// Published: the cursor's step. A line is lent as two columns, with a cursor and the position of a stop.
#![tactic(auto)]

mod step; // step.rt: the step, with its refusals

pub use step::project_stop;
