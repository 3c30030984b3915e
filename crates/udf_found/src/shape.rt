// What is kept of the block of a found entry.
ghost use Rattle.std.specs.Prelude.{◌≡◌, ◌<◌, ◌==◌, if◌then◌else◌, Some, None, IfOk, length};
ghost use Rattle.udf_file_model.specs.Content.{block_at};
ghost use Rattle.udf_file_model.specs.Listing.{Volume, listing};
ghost use Rattle.udf_found.specs.Shape.{IsShape};
ghost use Rattle.udf_found.specs.Target.{linking};

use crate::parents::{ParentFids, parent_fids};
use crate::pieces::{Piece, pieces_of};
use std::alloc::{AllocError, Global};
use udf_entry::{Entry, List};
use udf_field::{Addr, Long};

// The kind of an entry whose content is embedded (ECMA-167 4/14.6.8).
const EMBEDDED: u8 = 3;

/// What a found entry states of itself, its list, and what was read of its content.
#[derive(Debug, Drop)]
pub struct Shape {
    /// Whether it is a directory or a stream directory (ECMA-167 4/14.6.6).
    pub directory: bool,
    /// The number of links that it states (ECMA-167 4/14.9.6).
    pub links: u16,
    /// Its information length in bytes (ECMA-167 4/14.9.10).
    pub information: u64,
    /// Its identifier (ECMA-167 4/14.9.18).
    pub id: u64,
    /// The pointer to its stream directory, where it has a field for that (ECMA-167 4/14.17.20).
    pub stream: Option<Long>,
    /// The bytes of its embedded content, where it has one (ECMA-167 4/14.6.8).
    pub embedded: Option<u32>,
    /// Its list up to the first failure (ECMA-167 4/12).
    pub pieces: Vec<Piece>,
    /// Whether nothing of its list fails.
    pub good: bool,
    /// The good length: the bytes of its list, or of its embedded content.
    pub bytes: u64,
    /// The bytes of a directory's content up to the good length; 0 of a file.
    pub content: u64,
    /// What the parent FIDs of that content tell.
    pub parents: ParentFids,
}

// The bytes of an embedded content, where the entry has one.
fn embedded_in(entry: &Entry<'_>) -> Option<u32>
    ensures { result ≡ (if entry.now.kind == 3 then Some (length entry.now.body) else None) }
{
    if entry.kind() == EMBEDDED {
        Some(entry.body().len() as u32)
    } else {
        None
    }
}

/// The shape of an entry at an address, which stands in a block, with its list and what was read of its content at blocks of `size` bytes.
pub(crate) fn shape_of(
    alloc: Global,
    size: u32,
    at: Addr,
    block: &[u8],
    entry: &Entry<'_>,
    list: &List,
    content: &[u8],
) -> Result<Shape, AllocError>
    requires { 0 < size }
    ensures { (v : Volume) → v.size ≡ size → block.now ≡ block_at v at → list.now ≡ listing v at entry.now → content.now ≡ linking v at entry.now
        → IfOk result (λ shape. IsShape v at entry.now shape) }
{
    Ok(Shape {
        directory: entry.is_directory(),
        links: entry.links(),
        information: entry.info_length(),
        id: entry.id(),
        stream: entry.stream(),
        embedded: embedded_in(entry),
        pieces: pieces_of(alloc, at, list)?,
        good: list.good(),
        bytes: list.good_length(),
        content: content.len() as u64,
        parents: parent_fids(content, size),
    })
}
