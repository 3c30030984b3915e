//! Which entries a volume has: found from the root and the system stream directory by their links. Its one contract: whatever the blocks
//! of a volume hold, `find_entries` gives what the definitions of trees call found, each entry once, with its level, its links and its
//! list, or the answer is a fault that the bench counted, or want of memory. It stands on those definitions, on entries, directories,
//! partition layers and the bench.
#![tactic(auto)]

mod arena;
mod beyond;
mod find;
mod link;
mod links;
mod parents;
mod pieces;
mod reading;
mod shape;
mod starts;

pub use arena::{Arena, Found};
pub use find::find_entries;
pub use link::Link;
pub use links::links_of;
pub use parents::{ParentFids, parent_fids};
pub use pieces::Piece;
pub use reading::directory_content;
pub use shape::Shape;
pub use starts::Starts;
