// A leg of a trip drawn along its shape: the part between the leg's two stops, written to two lent columns if they have room. Legs without a shape,
// and what is refused before, are left to `leg_drawing`.
#![tactic(auto)]

mod shape; // shape.rt: along the shape

pub use shape::along_shape;
