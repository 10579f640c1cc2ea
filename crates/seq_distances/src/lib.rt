// The distance along the shape that the timetable has for a sequence of a trip. It ports `shape_dist_for_seq` of the Rust's rt/estimate.rs. Reads are total,
// and nothing is required. How a leg is drawn by two of them stands in `leg_paths`.
#![tactic(auto)]

mod dist; // the distance that the timetable has for a sequence

pub use dist::seq_dist;
