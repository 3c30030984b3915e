//! The volume of an image: its anchors, the kept descriptor sequence, what the prevailing descriptors state, and its file set.
//! Towards the layer above: `open_layout` answers the first refusal that applies, or a `Volume` whose every field is what
//! the descriptors state, with its `Layout`, which is computed once; `file_set` answers what the file set states and which
//! addresses no file may take; `read_descriptors` gives the list of an extent; `anchor_verdict`, `sequence_verdict` and
//! `table_verdict` judge a volume by the rules, for the check and for the planner. It stands on fields and tags, on the bench, on
//! sparing tables and partitions, and on the definitions of volumes.
#![tactic(auto)]

mod agreement;
mod anchor;
mod area;
mod clear;
mod descriptor;
mod fixed;
mod good_anchors;
mod kept;
mod layout;
mod leading;
mod maps;
mod matter;
mod offset;
mod open;
mod opened;
mod prevailing;
mod profile;
mod ranked;
mod sequence;
mod site;
mod size;
mod stretch;
mod tables;
mod taken;
mod volume;
mod writable;

pub use agreement::{SequenceVerdict, sequence_verdict};
pub use anchor::places_of;
pub use area::{areas_of, lies_outside};
pub use descriptor::{Descriptor, TERMINATING};
pub use fixed::Fixed;
pub use good_anchors::{AnchorVerdict, anchor_verdict};
pub use open::open_volume;
pub use opened::{Opened, open_layout, opened_law};
pub use sequence::{DescriptorList, read_descriptors};
pub use site::{FileSet, file_set};
pub use size::{block_size, found_size};
pub use stretch::Stretch;
pub use tables::table_verdict;
pub use taken::{Layout, layout_of};
pub use udf_layer::{
    Area, Deviation, LayerStop, MetaMap, Missing, ProfileItem, SparingMap, TableVerdict, WorkStop,
};
pub use volume::{Shape, Upper, Volume, Which};
