//! Anchors and their places (ECMA-167 3/8.4.2.1, 3/10.2).
ghost use Rattle.std.specs.Prelude.{◌≡◌, ◌≤◌, ◌<◌, length, IfOk, option_map, true, IfSome};
ghost use Rattle.std.specs.List.{AllByRecursion};
ghost use Rattle.udf_volume_model.specs.Anchor.{blocks_for, places, is_extent, names_extents, anchor_in};
ghost use Rattle.udf_volume_model.specs.Kept.{extent_of};
ghost use Rattle.udf_volume.specs.Seen.{extent_seen, anchor_seen, which_seen, span_of};

use crate::Which;
use std::alloc::{AllocError, Global};
use udf_field::{Fields, Span, id_at};

/// The identifier of an anchor (ECMA-167 3/7.2.1).
pub(crate) const ANCHOR: u16 = 2;

/// The least number of blocks of a sequence's extent (UDF 2.2.3).
const LEAST_EXTENT: u32 = 16;

/// The extents that an anchor names.
#[derive(Clone, Copy, Debug, PartialEq, Eq)]
pub(crate) struct Anchor {
    pub main: Span,
    pub reserve: Span,
}

impl Anchor {
    /// The extent of one of the two sequences.
    pub fn extent(self, which: Which) -> Span
        ensures { result ≡ span_of (extent_of (which_seen which) (anchor_seen self)) }
    {
        match which {
            Which::Main => self.main,
            Which::Reserve => self.reserve,
        }
    }
}

/// The places of an anchor in an image of so many blocks, in the order in which they are tried, each once.
#[tactic(auto, unfolding(udf_volume_model::specs::Anchor::places, udf_volume_model::specs::Anchor::places_by))]
pub fn places_of(alloc: Global, blocks: u32) -> Result<Vec<u32>, AllocError>
    ensures places { IfOk result (λ v. v.items ≡ places blocks) }
    ensures inside { IfOk result (λ v. AllByRecursion (λ at. at < blocks) v.items) }
{
    if blocks == 0 {
        return Ok(Vec::new(alloc));
    }
    let last = blocks - 1;
    if last < 256 {
        return Ok(vec![in alloc; last]?);
    }
    if last == 256 {
        return Ok(vec![in alloc; 256, 0]?);
    }
    if last == 512 {
        return Ok(vec![in alloc; 256, 512]?);
    }
    Ok(vec![in alloc; 256, last, last - 256]?)
}

/// The blocks that an extent of so many bytes takes.
#[tactic(auto, unfolding(udf_volume_model::specs::Anchor::blocks_for))]
pub(crate) fn blocks_of(size: u32, bytes: u32) -> u32
    requires { 512 ≤ size }
    ensures { result ≡ blocks_for size bytes }
{
    ((bytes as u64 + (size as u64 - 1)) / size as u64) as u32
}

#[tactic(auto, unfolding(udf_volume_model::specs::Anchor::is_extent))]
fn is_sequence_extent(size: u32, blocks: u32, span: Span) -> bool
    requires { 512 ≤ size }
    ensures { result ≡ is_extent size blocks (extent_seen span) }
{
    let count = blocks_of(size, span.length);
    LEAST_EXTENT <= count && span.start as u64 + count as u64 <= blocks as u64
}

#[tactic(auto, unfolding(udf_volume_model::specs::Anchor::names_extents))]
fn names_sequences(size: u32, blocks: u32, anchor: Anchor) -> bool
    requires { 512 ≤ size }
    ensures { result ≡ names_extents size blocks (anchor_seen anchor) }
{
    is_sequence_extent(size, blocks, anchor.main)
        && is_sequence_extent(size, blocks, anchor.reserve)
}

/// The anchor in the block of a place, where it is whole there.
#[tactic(auto, unfolding(udf_volume_model::specs::Anchor::anchor_in, udf_volume_model::specs::Anchor::named_by, udf_volume_model::specs::Anchor::extent_at))]
pub(crate) fn anchor_of(block: &[u8], at: u32, size: u32, blocks: u32) -> Option<Anchor>
    requires room { 512 ≤ length block.now }
    requires large { 512 ≤ size }
    ensures anchor { option_map anchor_seen result ≡ anchor_in size blocks at block.now }
    ensures extents { IfSome result (λ anchor. names_extents size blocks (anchor_seen anchor) ≡ true) }
{
    if id_at(block, at) != Some(ANCHOR) {
        return None;
    }
    let fields = Fields::over(block);
    let anchor = Anchor {
        main: fields.span_at(16),
        reserve: fields.span_at(24),
    };
    if names_sequences(size, blocks, anchor) {
        Some(anchor)
    } else {
        None
    }
}
