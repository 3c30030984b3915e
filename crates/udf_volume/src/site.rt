//! The file set of a volume (ECMA-167 4/14.1): the descriptor at the head of the extent that the logical volume names, and the
//! addresses that no file may take.
ghost use Rattle.std.specs.Prelude.{◌≡◌, ◌≤◌, ◌<◌, ◌+◌, ◌/◌, ◌^◌, ◌||◌, ◌&&◌, ℕ, IfOk, IfErr, OnOk, Some, length};
ghost use Rattle.udf_field.specs.declared.address.Addr.{Addr};
ghost use Rattle.udf_model.specs.Tag.{is_id as is_found};
ghost use Rattle.udf_outside.specs.Files.{IsAttached};
ghost use Rattle.udf_outside.specs.Reads.{OnlyReads, failed};
ghost use Rattle.udf_outside.specs.Sectors.{disk_of};
ghost use Rattle.udf_outside.specs.declared.bench.Role.TheVariants.{Image};
ghost use Rattle.udf_volume_model.specs.FileSet.{id_by, pointed as pointed_by, stretch_has};
ghost use Rattle.udf_volume.specs.FileSet.{AreFixed, AreTaken, FindsFileSet, HeadsBy, IsHead, IsTakenFileSet, extent_stated, site_of};
ghost use Rattle.udf_volume.specs.Fixed.{in_stretch, stretches_over};
ghost use Rattle.udf_volume.specs.Over.{IsOver};
ghost use Rattle.udf_volume.specs.Refusals.{RefusesFileSet};

use crate::clear::{bitmap_of, extent_of, is_clear};
use crate::descriptor::TERMINATING;
use crate::{Fixed, LayerStop, Missing, ProfileItem, Stretch, Volume, WorkStop};
use std::alloc::{AllocError, Global};
use udf_field::{Addr, Fields, Long, id_at};
use udf_layer::Parts;
use udf_outside::{Bench, Failed, read_block};

/// The identifier of a file set descriptor (ECMA-167 4/7.2.1).
const FILE_SET: u16 = 256;

// Offsets of its fields.
const ROOT: usize = 400;

/// The protection bits in the suffix of its domain, which stands at 416 (UDF 2.1.5.3).
const PROTECTION: usize = 416 + 26;

const NEXT_EXTENT: usize = 448;

const SYSTEM_STREAMS: usize = 464;

/// The bits of hard and soft write protection.
const PROTECTION_BITS: u8 = 3;

/// A file set, as its descriptor states it.
#[derive(Debug, Drop)]
pub struct FileSet {
    /// The address of its extent.
    pub at: Addr,
    /// The address of the root directory's entry.
    pub root: Addr,
    /// The address that the pointer to the system stream directory names, where the length of that is not 0.
    pub system: Option<Addr>,
    /// Whether a protection bit stands in the domain's suffix.
    pub guarded: bool,
    /// The addresses that no file may take.
    pub fixed: Fixed,
}

/// What the descriptor of a file set states, and whether it names a further extent of file sets.
#[derive(Clone, Copy)]
pub(crate) struct Head {
    pub root: Addr,
    pub system: Option<Addr>,
    pub guarded: bool,
    pub further: bool,
}

// Whether an identifier that was found is this one.
fn is_id(found: Option<u16>, id: u16) -> bool
    ensures { result ≡ is_found id found }
{
    match found {
        None => false,
        Some(found) => found == id,
    }
}

// Whether a descriptor with this identifier stands whole at an address. `block` is lent, has the block size, and holds the block
// at that address then.
fn read_descriptor<B: Bench, P: Parts>(
    bench: &mut B,
    parts: &P,
    size: u32,
    at: Addr,
    id: u16,
    block: &mut [u8],
) -> Result<bool, Failed>
    requires attached { IsAttached Image (B.files bench.old) }
    requires large { 512 ≤ size }
    requires placed { (a : Addr) (s : ℕ) → P.place parts.now a ≡ Some s → s < (B.files bench.old).image.size / size }
    requires room { length block.old ≡ size }
    ensures stands { B.tells → IfOk result (λ stands. stands ≡ is_found id (id_by (disk_of size (B.held bench.old)) at.block (P.place parts.now at))) }
    ensures block { B.tells → (s : ℕ) → P.place parts.now at ≡ Some s → OnOk result (block.new ≡ disk_of size (B.held bench.old) s) }
    ensures room { length block.new ≡ length block.old }
    ensures reads { OnlyReads B.files B.held B.faults bench.old bench.new failed result }
{
    let Some(sector) = parts.locate(at) else {
        return Ok(false);
    };
    read_block(bench, size, sector, block)?;
    Ok(is_id(id_at(block, at.block), id))
}

// The address that an allocation descriptor names, where its length is not 0.
fn pointed(long: Long) -> Option<Addr>
    ensures { result ≡ pointed_by long }
{
    if long.length == 0 {
        None
    } else {
        Some(long.at)
    }
}

// What the descriptor of a file set states.
#[tactic(auto, unfolding(udf_volume_model::specs::FileSet::root_in, udf_volume_model::specs::FileSet::system_in, udf_volume_model::specs::FileSet::is_guarded_in, udf_volume_model::specs::FileSet::names_further))]
fn head_in(block: &[u8]) -> Head
    requires { 512 ≤ length block.now }
    ensures { IsHead block.now result }
{
    let fields = Fields::over(block);
    Head {
        root: fields.long_at(ROOT).at,
        system: pointed(fields.long_at(SYSTEM_STREAMS)),
        guarded: fields.u8_at(PROTECTION) & PROTECTION_BITS != 0,
        further: fields.long_at(NEXT_EXTENT).length != 0,
    }
}

// What the first block of the extent states, where a file set stands there. `block` is lent and has the block size.
fn read_head<B: Bench, P: Parts>(
    bench: &mut B,
    volume: &Volume,
    parts: &P,
    block: &mut [u8],
) -> Result<Option<Head>, Failed>
    requires over { IsOver volume.now (B.files bench.old) }
    requires some { 0 < volume.now.file_set.length }
    requires placed { (a : Addr) (s : ℕ) → P.place parts.now a ≡ Some s → s < (B.files bench.old).image.size / volume.now.size }
    requires room { length block.old ≡ volume.now.size }
    ensures head { B.tells → IfOk result (HeadsBy (site_of volume.now (disk_of volume.now.size (B.held bench.old)) (P.place parts.now) (P.inner parts.now))) }
    ensures room { length block.new ≡ length block.old }
    ensures reads { OnlyReads B.files B.held B.faults bench.old bench.new failed result }
{
    let at = volume.file_set.at;
    if read_descriptor(bench, parts, volume.size, at, FILE_SET, block)? {
        Ok(Some(head_in(block)))
    } else {
        Ok(None)
    }
}

// The block after the extent, where a terminating descriptor stands there.
fn end_block(after: Addr, ended: bool) -> Option<Stretch>
    ensures { (a : Addr) → in_stretch result a ≡ (stretch_has after 1 a && ended) }
{
    if ended {
        Some(Stretch {
            at: after,
            blocks: 1,
        })
    } else {
        None
    }
}

// The addresses of these stretches, with the address after the file set.
fn fixed_by(
    alloc: Global,
    bitmap: Option<Stretch>,
    extent: Stretch,
    end: Option<Stretch>,
    after: Addr,
) -> Result<Fixed, AllocError>
    ensures after { IfOk result (λ fixed. fixed.after ≡ after) }
    ensures fixed { IfOk result (λ fixed. (a : Addr) → stretches_over fixed.stretches a
        ≡ (in_stretch bitmap a || (stretch_has extent.at extent.blocks a || in_stretch end a))) }
{
    let with_bitmap = Fixed::none(alloc, after).with(bitmap)?;
    let with_extent = with_bitmap.with(Some(extent))?;
    let fixed = with_extent.with(end)?;
    Ok(fixed)
}

// The addresses that no file may take. `block` is lent and has the block size.
fn fixed_addresses<B: Bench, P: Parts>(
    alloc: Global,
    bench: &mut B,
    volume: &Volume,
    parts: &P,
    extent: Stretch,
    block: &mut [u8],
) -> Result<Fixed, WorkStop>
    requires over { IsOver volume.now (B.files bench.old) }
    requires placed { (a : Addr) (s : ℕ) → P.place parts.now a ≡ Some s → s < (B.files bench.old).image.size / volume.now.size }
    requires extent { extent ≡ extent_stated volume.now }
    requires low { extent.at.block + extent.blocks < 2 ^ 32 }
    requires room { length block.old ≡ volume.now.size }
    ensures fixed { B.tells → IfOk result (AreFixed (site_of volume.now (disk_of volume.now.size (B.held bench.old)) (P.place parts.now) (P.inner parts.now))) }
    ensures taken { IfOk result (AreTaken volume.now) }
    ensures reads { OnlyReads B.files B.held B.faults bench.old bench.new WorkStop.Fault result }
{
    let after = Addr {
        part: extent.at.part,
        block: extent.at.block + extent.blocks,
    };
    let ended = read_descriptor(bench, parts, volume.size, after, TERMINATING, block)?;
    let end = end_block(after, ended);
    let fixed = fixed_by(alloc, bitmap_of(volume), extent, end, after)?;
    Ok(fixed)
}

/// The file set of a volume in partitions that stand in its image, or the first refusal. `Missing(FileSet)` where the extent is not
/// placed whole, shares an address with the space bitmap or with an upper partition, or no file set descriptor stands whole in its
/// first block; `Missing(Profile(FileSets))` where that names a further extent of file sets. The first block and the one after the
/// extent are read, once each.
pub fn file_set<B: Bench, P: Parts>(
    alloc: Global,
    bench: &mut B,
    volume: &Volume,
    parts: &P,
) -> Result<FileSet, LayerStop>
    requires over { IsOver volume.now (B.files bench.old) }
    requires placed { (a : Addr) (s : ℕ) → P.place parts.now a ≡ Some s → s < (B.files bench.old).image.size / volume.now.size }
    ensures answers { B.tells → FindsFileSet (site_of volume.now (disk_of volume.now.size (B.held bench.old)) (P.place parts.now) (P.inner parts.now)) result }
    ensures taken { IfOk result (IsTakenFileSet volume.now (P.place parts.now) (P.inner parts.now)) }
    ensures refusal { IfErr result RefusesFileSet }
    ensures reads { OnlyReads B.files B.held B.faults bench.old bench.new LayerStop.Fault result }
{
    if volume.file_set.length == 0 {
        return Err(LayerStop::Missing(Missing::FileSet));
    }
    let extent = extent_of(volume);
    if !is_clear(volume, parts, extent) {
        return Err(LayerStop::Missing(Missing::FileSet));
    }
    let mut block = vec![in alloc; 0u8; volume.size as usize]?;
    let Some(head) = read_head(bench, volume, parts, &mut block)? else {
        return Err(LayerStop::Missing(Missing::FileSet));
    };
    if head.further {
        return Err(LayerStop::Missing(Missing::Profile(ProfileItem::FileSets)));
    }
    let fixed = fixed_addresses(alloc, bench, volume, parts, extent, &mut block)?;
    Ok(FileSet {
        at: volume.file_set.at,
        root: head.root,
        system: head.system,
        guarded: head.guarded,
        fixed,
    })
}
