//! The blocks that a repair wants on an image: rules put them in any order, and one pass over them makes the plan. Its one contract
//! towards the layers above: what was put first at a sector counts, and the plan is exactly the wanted blocks that differ from the
//! image's; where each may be written, so may the plan. It stands on plans, the volume and its laws.
#![tactic(auto)]

mod difference;
mod plan;
mod wanted;

pub use plan::plan_wanted;
pub use udf_blocks::Plan;
pub use udf_outside::NoMemory;
pub use udf_volume::WorkStop;
pub use wanted::Wanted;
