//! The kept anchor and the kept sequence: the first place with a whole anchor that leads to a whole sequence.
ghost use Rattle.std.specs.Prelude.{◌≡◌, ◌≤◌, ◌<◌, length, IfOk, IfSome, option_map, true};
ghost use Rattle.std.specs.List.{AllByRecursion};
ghost use Rattle.udf_outside.specs.Reads.{OnlyReads};
ghost use Rattle.udf_outside.specs.Sectors.{disk_of};
ghost use Rattle.udf_volume_model.specs.Anchor.{names_extents};
ghost use Rattle.udf_volume_model.specs.Kept.{extent_of, limit_of, has_id, is_complete, whole_by, sequence_at, kept_sequence_at, kept_sequence_in, has_anchor};
ghost use Rattle.udf_volume.specs.Seen.{anchor_seen, which_seen};
ghost use Rattle.udf_volume.specs.Led.{listed_in, kept_as, led_seen, IsLed, Finds, FindsLawful, at_least_unled_of};
ghost use Rattle.udf_volume.specs.Over.{HasBlocks};

use crate::anchor::{Anchor, anchor_of, blocks_of};
use crate::descriptor::{LOGICAL_VOLUME, PARTITION, PRIMARY};
use crate::leading::{Leading, leading_of};
use crate::{Descriptor, DescriptorList, Which, WorkStop, read_descriptors};
use std::alloc::Global;
use udf_outside::{Bench, read_block};

/// The kept anchor, the descriptors of the sequence to which it leads, and which of them lead.
#[derive(Debug, Drop)]
pub(crate) struct Led {
    pub place: u32,
    pub anchor: Anchor,
    pub which: Which,
    pub descriptors: Vec<Descriptor>,
    pub leading: Leading,
}

/// What the places of anchors hold.
#[derive(Debug, Drop)]
pub(crate) enum AnchorSearch {
    /// No whole anchor.
    Nothing,
    /// Whole anchors, none of which leads to a whole sequence.
    Unled,
    Kept(Led),
}

impl AnchorSearch {
    fn at_least_unled(self) -> AnchorSearch
        ensures { result ≡ at_least_unled_of self }
    {
        match self {
            AnchorSearch::Nothing => AnchorSearch::Unled,
            AnchorSearch::Unled => AnchorSearch::Unled,
            AnchorSearch::Kept(led) => AnchorSearch::Kept(led),
        }
    }
}

#[tactic(auto, unfolding(udf_volume_model::specs::Kept::has_id))]
pub(crate) fn has_descriptor(list: &[Descriptor], id: u16) -> bool
    ensures { result ≡ has_id id list.now }
{
    list.iter().any(|descriptor| descriptor.id() == id)
}

#[tactic(auto, unfolding(udf_volume_model::specs::Kept::is_complete))]
pub(crate) fn is_complete_list(list: &[Descriptor], limit: u32) -> bool
    ensures { result ≡ is_complete limit list.now }
{
    list.len() < limit as usize
        && has_descriptor(list, PRIMARY)
        && has_descriptor(list, PARTITION)
        && has_descriptor(list, LOGICAL_VOLUME)
}

// The descriptors of a list that no block spoils and that is complete.
fn whole_list(list: DescriptorList, limit: u32) -> Option<Vec<Descriptor>>
    ensures whole { option_map (λ v. v.items) result ≡ whole_by limit (listed_in list) }
    ensures complete { IfSome result (λ v. is_complete limit v.items ≡ true) }
{
    if list.is_spoilt {
        return None;
    }
    if is_complete_list(&list.descriptors, limit) {
        Some(list.descriptors)
    } else {
        None
    }
}

/// A whole anchor at its place, in an image of so many blocks of a size.
#[derive(Clone, Copy, Debug)]
struct Candidate {
    size: u32,
    blocks: u32,
    place: u32,
    anchor: Anchor,
}

impl Candidate {
    // The blocks of the smaller of both extents: a whole sequence has fewer descriptors.
    #[tactic(auto, unfolding(udf_volume_model::specs::Kept::limit_of))]
    fn limit(self) -> u32
        requires { 512 ≤ self.size }
        ensures { result ≡ limit_of self.size (anchor_seen self.anchor) }
    {
        let main = blocks_of(self.size, self.anchor.main.length);
        let reserve = blocks_of(self.size, self.anchor.reserve.length);
        main.min(reserve)
    }
}

// The descriptors of one of the sequences that an anchor names, where it is whole.
fn whole_sequence<B: Bench>(
    alloc: Global,
    bench: &mut B,
    at: Candidate,
    which: Which,
    block: &mut [u8],
) -> Result<Option<Vec<Descriptor>>, WorkStop>
    requires image { HasBlocks at.size at.blocks (B.files bench.old) }
    requires room { length block.old ≡ at.size }
    requires extents { names_extents at.size at.blocks (anchor_seen at.anchor) ≡ true }
    ensures sequence { B.tells → IfOk result (λ found. option_map (λ v. v.items) found
        ≡ sequence_at at.size (disk_of at.size (B.held bench.old)) (limit_of at.size (anchor_seen at.anchor))
        (extent_of (which_seen which) (anchor_seen at.anchor))) }
    ensures complete { IfOk result (λ found. IfSome found (λ v. is_complete (limit_of at.size (anchor_seen at.anchor)) v.items ≡ true)) }
    ensures reads { OnlyReads B.files B.held B.faults bench.old bench.new WorkStop.Fault result }
{
    let extent = at.anchor.extent(which);
    let count = blocks_of(at.size, extent.length);
    let list = read_descriptors(alloc, bench, at.size, extent.start, count, block)?;
    Ok(whole_list(list, at.limit()))
}

// One of the sequences that an anchor names, with its anchor.
fn led_from<B: Bench>(
    alloc: Global,
    bench: &mut B,
    at: Candidate,
    which: Which,
    block: &mut [u8],
) -> Result<Option<Led>, WorkStop>
    requires image { HasBlocks at.size at.blocks (B.files bench.old) }
    requires room { length block.old ≡ at.size }
    requires place { at.place < at.blocks }
    requires extents { names_extents at.size at.blocks (anchor_seen at.anchor) ≡ true }
    ensures led { B.tells → IfOk result (λ led. option_map led_seen led
        ≡ option_map (kept_as at.place (anchor_seen at.anchor) (which_seen which))
        (sequence_at at.size (disk_of at.size (B.held bench.old)) (limit_of at.size (anchor_seen at.anchor))
        (extent_of (which_seen which) (anchor_seen at.anchor)))) }
    ensures lawful { IfOk result (λ led. IfSome led (IsLed at.size at.blocks)) }
    ensures reads { OnlyReads B.files B.held B.faults bench.old bench.new WorkStop.Fault result }
{
    let Some(descriptors) = whole_sequence(alloc, bench, at, which, block)? else {
        return Ok(None);
    };
    let leading = leading_of(&descriptors);
    Ok(Some(Led {
        place: at.place,
        anchor: at.anchor,
        which,
        descriptors,
        leading,
    }))
}

// The sequence to which an anchor leads, the main one first.
fn led_by<B: Bench>(
    alloc: Global,
    bench: &mut B,
    at: Candidate,
    block: &mut [u8],
) -> Result<Option<Led>, WorkStop>
    requires image { HasBlocks at.size at.blocks (B.files bench.old) }
    requires room { length block.old ≡ at.size }
    requires place { at.place < at.blocks }
    requires extents { names_extents at.size at.blocks (anchor_seen at.anchor) ≡ true }
    ensures led { B.tells → IfOk result (λ led. option_map led_seen led
        ≡ kept_sequence_at at.size (disk_of at.size (B.held bench.old)) at.place (Some (anchor_seen at.anchor))) }
    ensures lawful { IfOk result (λ led. IfSome led (IsLed at.size at.blocks)) }
    ensures reads { OnlyReads B.files B.held B.faults bench.old bench.new WorkStop.Fault result }
{
    match led_from(alloc, bench, at, Which::Main, block)? {
        Some(led) => Ok(Some(led)),
        None => led_from(alloc, bench, at, Which::Reserve, block),
    }
}

/// What these places of an image of so many blocks hold. `block` is lent and has the block size.
#[tactic(auto, using(crate::proofs::Searching::none_left, crate::proofs::Searching::no_anchor, crate::proofs::Searching::leads, crate::proofs::Searching::leads_not))]
pub(crate) fn search<B: Bench>(
    alloc: Global,
    bench: &mut B,
    size: u32,
    blocks: u32,
    places: &[u32],
    block: &mut [u8],
) -> Result<AnchorSearch, WorkStop>
    requires image { HasBlocks size blocks (B.files bench.old) }
    requires room { length block.old ≡ size }
    requires inside { AllByRecursion (λ at. at < blocks) places.now }
    ensures found { B.tells → IfOk result (Finds
        (kept_sequence_in size blocks (disk_of size (B.held bench.old)) places.now)
        (has_anchor size blocks (disk_of size (B.held bench.old)) places.now)) }
    ensures lawful { IfOk result (FindsLawful size blocks) }
    ensures reads { OnlyReads B.files B.held B.faults bench.old bench.new WorkStop.Fault result }
{
    let Some((first, rest)) = places.split_first() else {
        return Ok(AnchorSearch::Nothing);
    };
    let place = *first;
    read_block(bench, size, place, block)?;
    let Some(anchor) = anchor_of(block, place, size, blocks) else {
        return search(alloc, bench, size, blocks, rest, block);
    };
    let at = Candidate {
        size,
        blocks,
        place,
        anchor,
    };
    if let Some(led) = led_by(alloc, bench, at, block)? {
        return Ok(AnchorSearch::Kept(led));
    }
    Ok(search(alloc, bench, size, blocks, rest, block)?.at_least_unled())
}
