//! The rules, a file each: what breaks them on an image. Towards the layer above: `check_opened` answers exactly the findings
//! of the definitions, in order of rule, place and values, and none exactly where no rule is broken; `check_recognition` adds those
//! of the rule on the recognition sequence alone; `report_line` writes the line of one. What mends a broken structure is the
//! planner's (`udf_plan`), which asks the same verdicts of `udf_volume`. It stands on the volume.
#![tactic(auto)]

mod anchors;
mod check;
mod finding;
mod recognition;
mod report;
mod sequences;
mod slots;
mod structure;
mod tables;

pub use check::check_opened;
pub use finding::{Finding, Findings, Place};
pub use recognition::check_recognition;
pub use report::report_line;
pub use udf_volume::WorkStop;
