// The rules of what trips and stops are looked up by: ids, aliases and lines.
#![tactic(auto)]

mod rules; // rules.rt: the rules of each part

pub use rules::{aliases, id_rows, lines};
