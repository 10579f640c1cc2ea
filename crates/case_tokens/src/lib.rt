// The tokens of the case language: the fields of a line. Nothing is known here of any form, nor of what a token spells.
#![tactic(auto)]

mod cut; // cut.rt: the fields of a line, with one space between

pub use cut::{closed, field, fields, inside};
