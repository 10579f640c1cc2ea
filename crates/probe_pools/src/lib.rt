// What the probe adds to the pools of a case (docs/CASES.md). As programs, its functions are proved safe and ending.
#![tactic(auto)]

pub mod asked; // asked.rt: where what is asked stands in the pools, after the case's columns
