//! Whether the extent of a file set lies as it must.
ghost use Rattle.std.specs.Prelude.{◌≡◌, ◌≤◌, ◌<◌, ◌+◌, ◌^◌, ℕ, List, true, is_some};
ghost use Rattle.udf_volume_model.specs.FileSet.{is_clear as is_clear_site, is_within, stretch_has, touches};
ghost use Rattle.udf_volume.specs.FileSet.{bitmap_stated, extent_stated, site_of};
ghost use Rattle.udf_volume.specs.Fixed.{in_stretch};

use crate::anchor::blocks_of;
use crate::{Stretch, Volume};
use udf_field::Addr;
use udf_layer::Parts;

/// The blocks of the file set's extent.
pub(crate) fn extent_of(volume: &Volume) -> Stretch
    requires { 512 ≤ volume.now.size }
    ensures { result ≡ extent_stated volume.now }
{
    Stretch {
        at: volume.file_set.at,
        blocks: blocks_of(volume.size, volume.file_set.length),
    }
}

/// The blocks of the bitmap's extent, where the volume has one.
pub(crate) fn bitmap_of(volume: &Volume) -> Option<Stretch>
    requires { 512 ≤ volume.now.size }
    ensures { result ≡ bitmap_stated volume.now }
{
    match volume.bitmap {
        None => None,
        Some(bitmap) => Some(Stretch {
            at: Addr {
                part: volume.shape.base,
                block: bitmap.block,
            },
            blocks: blocks_of(volume.size, bitmap.length),
        }),
    }
}

// Whether all blocks of an extent are placed.
fn is_placed<P: Parts>(parts: &P, extent: Stretch) -> bool
    requires { 0 < extent.blocks }
    ensures placed { result ≡ is_within (λ a. is_some (P.place parts.now a)) extent.at extent.blocks }
    ensures low { result ≡ true → extent.at.block + extent.blocks < 2 ^ 32 }
{
    let limit = parts.blocks(extent.at.part);
    if extent.at.block as u64 + extent.blocks as u64 > limit as u64 {
        return false;
    }
    parts.placed(extent.at, extent.blocks) == extent.blocks
}

// Whether two extents share an address.
fn overlap(extent: Stretch, other: Stretch) -> bool
    ensures { result ≡ touches (stretch_has other.at other.blocks) extent.at extent.blocks }
{
    let end = extent.at.block as u64 + extent.blocks as u64;
    let other_end = other.at.block as u64 + other.blocks as u64;
    let first = extent.at.block.max(other.at.block);
    other.at.part == extent.at.part && (first as u64) < end.min(other_end)
}

// Whether an extent shares an address with a stretch, where there is one.
fn touches_stretch(extent: Stretch, other: Option<Stretch>) -> bool
    ensures { result ≡ touches (in_stretch other) extent.at extent.blocks }
{
    match other {
        None => false,
        Some(other) => overlap(extent, other),
    }
}

// Whether an upper partition stands on a block of an extent.
fn touches_inner<P: Parts>(parts: &P, extent: Stretch) -> bool
    requires { extent.at.block + extent.blocks < 2 ^ 32 }
    ensures { result ≡ touches (P.inner parts.now) extent.at extent.blocks }
{
    for i in 0..extent.blocks {
        let at = Addr {
            part: extent.at.part,
            block: extent.at.block + i,
        };
        if parts.inner(at) {
            return true;
        }
    }
    false
}

/// Whether the extent is placed whole, apart from the bitmap and from upper partitions.
pub(crate) fn is_clear<P: Parts>(volume: &Volume, parts: &P, extent: Stretch) -> bool
    requires large { 512 ≤ volume.now.size }
    requires some { 0 < extent.blocks }
    requires extent { extent ≡ extent_stated volume.now }
    ensures clear { (disk : ℕ → List ℕ) → result ≡ is_clear_site (site_of volume.now disk (P.place parts.now) (P.inner parts.now)) }
    ensures low { result ≡ true → extent.at.block + extent.blocks < 2 ^ 32 }
{
    if !is_placed(parts, extent) {
        return false;
    }
    if touches_stretch(extent, bitmap_of(volume)) {
        return false;
    }
    !touches_inner(parts, extent)
}
