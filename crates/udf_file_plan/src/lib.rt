//! The planner of kept entries: which blocks a repair wants for them (ECMA-167 4/14). Its one contract towards the layer above:
//! `put_files` puts exactly those blocks of the mends of all kept entries that differ from the image's, in the order of their addresses;
//! on a repairable volume they give the mended blocks. `put_file_set` puts the file set's block where that loses its pointer to the system
//! stream directory. A block that the mend leaves as it is takes no memory, and is not written: what stands at one sector has one mend, so
//! that none of them hides another. It stands on the survey, on the mends of entries and on wanted blocks.
#![tactic(auto)]

mod content;
mod descriptors;
mod different;
mod entry;
mod extents;
mod file_set;
mod files;
mod mend;
mod node;

pub use file_set::put_file_set;
pub use files::put_files;
pub use udf_outside::NoMemory;
pub use udf_volume::WorkStop;
pub use udf_wanted::Wanted;
