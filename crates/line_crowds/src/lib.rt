// Whether another row of a line is as likely as the one that fits best.
#![tactic(auto)]

mod crowd; // whether another is within two minutes of it

pub use crowd::crowded;
