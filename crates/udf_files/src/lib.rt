//! The files of an opened volume: its partitions, its file set and the survey of its entries. Its one contract: `files_of` answers the
//! first refusal of the volume for its integrity sequence, its file set or its entries, by the definitions, or what those
//! definitions tell of its files. It stands on volumes, partitions, the integrity sequence and the survey.
#![tactic(auto)]

mod files;

pub use files::{Files, files_of};
