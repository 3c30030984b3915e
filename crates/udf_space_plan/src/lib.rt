//! What a repair writes for the rules on the recognition sequence, on the space bitmap and on integrity: each call puts the blocks that
//! its rule wants. Towards the layer above: what is put is exactly the edits of the definitions, and for every bench each block may be
//! written. It stands on the verdicts of these rules.
#![tactic(auto)]

mod bitmap;
mod descriptor;
mod extent;
mod integrity;
mod origin;
mod recognition;
mod runs;
mod slots;

pub use bitmap::put_bitmap;
pub use integrity::put_integrity;
pub use recognition::put_recognition;
pub use udf_outside::NoMemory;
pub use udf_volume::WorkStop;
