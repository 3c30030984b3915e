//! The partitions of an opened volume: where its addresses stand in the image. Its one contract: the partitions of a volume place
//! its addresses as the definitions of places do for its partition and its sparing table, and within the image. It stands on volumes
//! and partition layers.
#![tactic(auto)]

mod base;
mod opened;
mod placed;

pub use base::Base;
pub use opened::partitions;
pub use placed::partitions_law;
