// A trip's records after backfill, and the columns that they are laid out in. What they are is in specs/, the laws are in proofs/ (`Laid`, `Told`; `Keeps`: every
// other field of every record is as it was); this crate has no function. Those that write them are in `trip_records`.
#![tactic(auto)]
