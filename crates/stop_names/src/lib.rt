// The stop that a name stands for, over the lent tables. A stop is a row of the stops; one without a position is passed over.
#![tactic(auto)]

mod name; // by its name and the digits in it

pub use name::named_stop;
