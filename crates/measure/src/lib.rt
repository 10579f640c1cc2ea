// Measure: lengths and bearings on the globe. It ports `haversine_m` of the Rust's rt/estimate.rs, by
// `sphere_lengths`, and `bearing_deg` of rt/estimate.rs and routing/geometry.rs, which are one function.
//
// Published: `haversine_m` and `bearing_deg`, with refusal 3. `bearing` is the same for callers that
// have tested their positions.
#![tactic(auto)]

mod answer; // answer.rt: haversine_m, bearing_deg
mod sphere; // sphere.rt: bearing

pub use answer::{bearing_deg, haversine_m};
pub use sphere::bearing;
