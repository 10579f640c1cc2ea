// The square root of an f64, correctly rounded: equal to a definition of specs/. proofs/ has the laws on its order.
#![tactic(auto)]

mod square_root; // square_root.rt: root

pub use square_root::root;
