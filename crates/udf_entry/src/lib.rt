//! File entries (ECMA-167 4/14.9, 4/14.17): what the block of an entry says, and which blocks belong to it. Its one contract:
//! whatever a block and the partitions hold, each call answers what the definitions of files give of them, a fault that the
//! bench counted, or want of memory. It stands on the definitions of files, on partition layers, on the bench, on the fields
//! of structures and on `bitflags`.
#![tactic(auto)]

mod body;
mod chain;
mod content;
mod entry;
mod extent;
mod header;
mod icb_flags;
mod list;
mod reading;
mod rules;
mod run;
mod seen;
mod stop;
mod values;

pub use content::content_of;
pub use entry::{Entry, read_entry};
pub use header::{base_in, header_at, kind_in};
pub use icb_flags::IcbFlags;
pub use list::{List, list_of};
pub use run::Run;
pub use stop::ListStop;
pub use values::{Values, retag_entry};

#[cfg(test)]
mod tests;
