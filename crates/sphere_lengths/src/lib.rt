// The lengths of ways on the globe. It ports `haversine_m` of the Rust's rt/estimate.rs and link/geo.rs, which give the same bits, for
// callers that have tested their positions; `way` of `haversin` is `haversine` in two steps. With refusal 3 it is in `measure`.
#![tactic(auto)]

mod haversines; // haversines.rt: haversine and its two steps

pub use haversines::{Globe, haversin, haversine, way};
