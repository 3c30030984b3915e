//! What a change of a file keeps, so that it can be undone.
use crate::Role;
use crate::memory::part::Part;
use crate::memory::range::Range;

/// What one change did to its file: a write holds its offset, the bytes it overwrote, the length before it, and the last
/// range of those written since the last sync, where its own was joined to that one; a sync the length at the sync
/// before, and the ranges since.
#[derive(Drop)]
pub enum Undo {
    Write {
        at: u64,
        overwritten: Part,
        len: u64,
        joined: Option<Range>,
    },
    Sync {
        base: u64,
        ranges: Vec<Range>,
    },
}

/// A change of one file.
#[derive(Drop)]
pub struct Change {
    pub role: Role,
    pub undo: Undo,
}
