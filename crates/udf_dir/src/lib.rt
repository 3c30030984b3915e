//! The names of a directory: the file identifier descriptors (FIDs) of its content, scanned, compared and packed
//! (ECMA-167 4/14.4). Its one contract: whatever bytes a content has, each call answers what the definitions of files
//! give of them, or want of memory. It stands on the definitions of files, on the fields of structures, on texts and on
//! `bitflags`.
#![tactic(auto)]

mod canonical;
mod content;
mod fid;
mod marks;
mod packed;
mod same;
mod scanner;

pub use canonical::{CanonicalName, canonical_name};
pub use content::{fid_at, is_whole, scan};
pub use fid::Fid;
pub use marks::Marks;
pub use packed::{Packed, pack};
pub use same::same_name;
pub use scanner::Scan;
pub use udf_text::NoMemory;

#[cfg(test)]
mod tests;
