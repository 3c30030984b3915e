//! The survey of a volume's files: its kept entries by their numbers, and all that is told of each. Its one contract: whatever the
//! blocks of a volume hold, `survey` tells what the definitions of trees give, or the answer is the first refusal by those definitions,
//! a fault that the bench counted, or want of memory. It stands on what is found, held and kept, on what becomes of contents, and on
//! what entries are to state.
#![tactic(auto)]

mod children;
mod climb;
mod file_survey;
mod files;
mod framed;
mod judge;
mod kept_contents;
mod names;
mod node;
mod nodes;
mod notes;
mod numbers;
mod path;
mod pointers;
#[cfg(test)]
mod small_volume;
mod stated;
mod surveyed;
#[cfg(test)]
mod tests;

pub use children::Kin;
pub use file_survey::survey;
pub use framed::frame_law;
pub use judge::Verdict;
pub use kept_contents::KeptContent;
pub use node::{Node, NodeId};
pub use path::Path;
pub use stated::Stated;
pub use surveyed::Survey;
