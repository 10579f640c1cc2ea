// Lists of a table's rows: those that pass a test, and lists that a loop writes one for each row. This crate has no function.
#![tactic(auto)]
