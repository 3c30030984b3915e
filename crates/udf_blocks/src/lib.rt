//! Blocks that are to be written: a plan is blocks of one size at ascending sectors. Its one contract towards the layers
//! above: it is seen as the list of its sectors with their blocks, which is lawful whatever is pushed. The planner fills
//! plans, and the log records and applies them, each without the other. It stands on the definitions of volumes.
#![tactic(auto)]

mod plan;

pub use plan::Plan;
pub use udf_outside::NoMemory;
