//! Lists of descriptors: what a block says in a sequence, and the descriptors of an extent.
ghost use Rattle.std.specs.Prelude.{◌≡◌, ◌+◌, ◌≤◌, ◌<◌, ◌^◌, length, IfOk, true};
ghost use Rattle.udf_model.specs.Image.{is_zeros};
ghost use Rattle.udf_outside.specs.Stops.{bytes_of};
ghost use Rattle.udf_outside.specs.Reads.{OnlyReads};
ghost use Rattle.udf_outside.specs.Sectors.{disk_of};
ghost use Rattle.udf_outside.specs.declared.bench.Role.TheVariants.{Image};
ghost use Rattle.udf_volume_model.specs.Sequence.{is_listed, other_view, view_of, views, front_of, is_spoilt};
ghost use Rattle.udf_volume_model.specs.Anchor.{is_extent};
ghost use Rattle.udf_volume.specs.Views.{view_seen};
ghost use Rattle.udf_volume.specs.Seen.{extent_seen};
ghost use Rattle.udf_volume.specs.Spans.{views_in};
ghost use Rattle.udf_volume.specs.Over.{HasBlocks, IsOver};

use crate::descriptor::{
    IMPLEMENTATION_USE, LOGICAL_VOLUME, PARTITION, POINTER, PRIMARY, TERMINATING, UNALLOCATED_SPACE,
};
use crate::{Descriptor, Volume, WorkStop};
use std::alloc::{AllocError, Global};
use udf_field::{Span, whole_id};
use udf_outside::{Bench, read_block};

/// The descriptors of a list, up to the first block that ends or spoils it.
#[derive(Debug, Drop)]
pub struct DescriptorList {
    pub descriptors: Vec<Descriptor>,
    pub is_spoilt: bool,
}

/// What a block says in a sequence.
#[derive(Debug, Drop)]
enum View {
    End,
    Spoiled,
    Listed(Descriptor),
}

#[tactic(auto, unfolding(udf_model::specs::Image::is_zeros))]
fn all_zeros(block: &[u8]) -> bool
    ensures { result ≡ is_zeros block.now }
{
    block.iter().all(|byte| *byte == 0)
}

#[tactic(auto, unfolding(udf_volume_model::specs::Sequence::is_listed))]
fn is_volume_descriptor(id: u16) -> bool
    ensures { result ≡ is_listed id }
{
    matches!(
        id,
        PRIMARY | POINTER | IMPLEMENTATION_USE | PARTITION | LOGICAL_VOLUME | UNALLOCATED_SPACE
    )
}

// What a block says that is neither terminator nor descriptor.
#[tactic(auto, unfolding(udf_volume_model::specs::Sequence::other_view))]
fn other(block: &[u8]) -> View
    ensures { view_seen result ≡ other_view block.now }
{
    if all_zeros(block) {
        View::End
    } else {
        View::Spoiled
    }
}

#[tactic(auto, unfolding(udf_volume_model::specs::Sequence::view_of))]
fn read_view(alloc: Global, block: &[u8]) -> Result<View, AllocError>
    requires { 512 ≤ length block.now }
    ensures { IfOk result (λ view. view_seen view ≡ view_of block.now) }
{
    match whole_id(block) {
        None => Ok(other(block)),
        Some(TERMINATING) => Ok(View::End),
        Some(id) => {
            if is_volume_descriptor(id) {
                Ok(View::Listed(Descriptor::of(alloc, id, block)?))
            } else {
                Ok(other(block))
            }
        }
    }
}

/// The descriptors of the list that begins an extent of `count` blocks at the sector `start`. `block` is lent and has the
/// block size.
#[tactic(auto, using(crate::proofs::Gather::begins, crate::proofs::Gather::ends, crate::proofs::Gather::spoils, crate::proofs::Gather::goes_on, crate::proofs::Gather::is_done))]
pub fn read_descriptors<B: Bench>(
    alloc: Global,
    bench: &mut B,
    size: u32,
    start: u32,
    count: u32,
    block: &mut [u8],
) -> Result<DescriptorList, WorkStop>
    requires image { HasBlocks size (start + count) (B.files bench.old) }
    requires numbers { start + count < 2 ^ 32 }
    requires room { length block.old ≡ size }
    ensures front { B.tells → IfOk result (λ list. list.descriptors.items
        ≡ front_of (views (disk_of size (B.held bench.old)) start count)) }
    ensures spoilt { B.tells → IfOk result (λ list. list.is_spoilt
        ≡ is_spoilt (views (disk_of size (B.held bench.old)) start count)) }
    ensures short { IfOk result (λ list. length list.descriptors.items ≤ count) }
    ensures reads { OnlyReads B.files B.held B.faults bench.old bench.new WorkStop.Fault result }
{
    let mut descriptors = Vec::new(alloc);
    for i in 0..count {
        read_block(bench, size, start + i, block)?;
        match read_view(alloc, block)? {
            View::End => return Ok(DescriptorList {
                descriptors,
                is_spoilt: false,
            }),
            View::Spoiled => return Ok(DescriptorList {
                descriptors,
                is_spoilt: true,
            }),
            View::Listed(descriptor) => descriptors.push(descriptor)?,
        }
    }
    Ok(DescriptorList {
        descriptors,
        is_spoilt: false,
    })
}

/// The descriptors of the list that begins one of a volume's sequence extents. `block` is lent and has the block size.
#[tactic(auto, using(crate::proofs::Extents::fits, crate::proofs::Extents::in_numbers))]
pub(crate) fn read_sequence<B: Bench>(
    alloc: Global,
    bench: &mut B,
    volume: &Volume,
    extent: Span,
    block: &mut [u8],
) -> Result<DescriptorList, WorkStop>
    requires over { IsOver volume.now (B.files bench.old) }
    requires room { length block.old ≡ volume.now.size }
    requires extent { is_extent volume.now.size volume.now.blocks (extent_seen extent) ≡ true }
    ensures front { B.tells → IfOk result (λ list. list.descriptors.items
        ≡ front_of (views_in volume.now.size (bytes_of Image (B.held bench.old)) extent)) }
    ensures spoilt { B.tells → IfOk result (λ list. list.is_spoilt
        ≡ is_spoilt (views_in volume.now.size (bytes_of Image (B.held bench.old)) extent)) }
    ensures reads { OnlyReads B.files B.held B.faults bench.old bench.new WorkStop.Fault result }
{
    let count = volume.blocks_of(extent);
    let list = read_descriptors(alloc, bench, volume.size, extent.start, count, block)?;
    Ok(list)
}
