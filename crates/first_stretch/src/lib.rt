// The first stretch of a part of a line that a target meets, a target being a length along the part. It is the loop that the Rust has in
// routing/geometry.rs (`interpolate_shape_by_dist`) and again in rt/estimate.rs (`interpolate_along_vertices`). A line is lent as two columns, as in
// `lengths`. Nothing is required: a NaN in a length or a target goes the way that the Rust's tests send it.
//
// No length is stored: the sum is carried in the loop, from the left, and stops at the stretch found.
#![tactic(auto)]

mod search; // the first stretch that a target meets

pub use search::stretch_at;
