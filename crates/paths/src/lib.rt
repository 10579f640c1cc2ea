// The path of a leg: how it is drawn, which is chosen without the fraction, and what is told of a ferry on it. It
// ports `PathGeom` and the choice in `interpolate_segment` of the Rust's rt/estimate.rs, by value: what reads
// lines and tables stands in the crates above. Lines are lists of points in specs/; nothing is required.
#![tactic(auto)]

mod path; // how a leg is drawn
mod status; // what is told of a ferry

pub use path::{End, Line, Path, feed_span, path_kind, path_status, path_way};
pub use status::Status;
