//! Partition layers: which sector of the image stands behind a block of a partition, and behind an address. Towards the layers
//! above: `Parts`, whose answers are functions of the partitions' places alone, with laws that tell addresses of different
//! sectors apart; nothing above knows how a partition is built. It stands on addresses and on the definitions of places.
#![tactic(auto)]

mod agreement;
mod area;
mod entries;
mod free;
mod layer;
mod maps;
mod missing;
mod one;
mod parts;
mod physical;
mod prevailing;
mod sectors;
mod sparable;
mod table;
mod whole_table;

pub use agreement::{Deviation, TableVerdict, coverable_bytes, table_verdict};
pub use area::Area;
pub use layer::Layer;
pub use maps::{MetaMap, SparingMap};
pub use missing::{LayerStop, Missing, ProfileItem, WorkStop};
pub use one::One;
pub use parts::Parts;
pub use physical::Physical;
pub use prevailing::{prevailing_law, sparing_table};
pub use sparable::{Sparable, spare_law};
pub use table::SparingTable;
pub use whole_table::covered_bytes;

#[cfg(test)]
mod tests;
