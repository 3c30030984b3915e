//! The rules on kept entries, on the space bitmap and on integrity, a file each: what breaks them on a volume whose files were
//! surveyed. Towards the layer above: `check_files` adds exactly the findings of the definitions, in order of rule, place and values.
//! What mends a broken structure is the planner's. It stands on the survey, on bitmaps and on the rules of volumes, whose
//! findings it has.
#![tactic(auto)]

mod allocation;
mod bitmap;
mod check;
mod contents;
mod identifiers;
mod integrity;
mod link_counts;
mod names;
mod right;
mod tally;
mod targets;

pub use check::check_files;
pub use integrity::right_of;
pub use right::Right;
pub use tally::Tally;
