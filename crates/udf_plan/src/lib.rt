//! What a repair writes: a plan is the blocks in which the mended image differs from the image, by ascending sectors. Each
//! rule puts the blocks that it wants, in any order, and one pass over them makes the plan. Towards the layer above:
//! `plan_volume` is exactly that difference for the rules on sequences, anchors and sparing tables, and for every bench its sectors lie in
//! the image and are no block of the kept descriptors. It stands on the volume and its laws.
#![tactic(auto)]

mod anchors;
mod copy;
mod sequence;
mod tables;
mod terminator;
mod volume;

pub use terminator::write_terminator;
pub use udf_blocks::Plan;
pub use udf_outside::NoMemory;
pub use udf_volume::WorkStop;
pub use volume::plan_volume;
