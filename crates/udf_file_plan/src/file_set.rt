//! What the mend of a file set's pointer to the system stream directory wants (ECMA-167 4/14.1.18).
ghost use Rattle.std.specs.Prelude.{◌≡◌, ◌+◌, ◌≤◌, ◌++◌, ◌&&◌, not, is_some, replicate, IfOk, OnOk, length};
ghost use Rattle.udf_model.specs.Bytes.{number_at, written_at};
ghost use Rattle.udf_model.specs.Tag.{retagged};
ghost use Rattle.udf_outside.specs.Reads.{OnlyReads};
ghost use Rattle.udf_outside.specs.Sectors.{disk_of};
ghost use Rattle.udf_outside.specs.Stops.{bytes_of};
ghost use Rattle.udf_outside.specs.declared.bench.Role.TheVariants.{Image};
ghost use Rattle.udf_rules_model.specs.Files.{files_in, frame_in};
ghost use Rattle.udf_files.specs.Files.{AreFilesOf, places_in};
ghost use Rattle.udf_file_mends.specs.FileSet.{cleared_set, file_set_edits};
ghost use Rattle.udf_wanted.specs.Wanted.{LookAlike, differing};
ghost use Rattle.udf_wanted.specs.Writable.{AreWritable};
ghost use Rattle.udf_file_plan.specs.Base.{IsPlannedOver};

use crate::WorkStop;
use crate::different::put_different;
use crate::entry::write_at;
use std::alloc::{AllocError, Global};
use udf_field::{Fields, retag};
use udf_files::Files;
use udf_layer::Parts;
use udf_outside::{Bench, read_block};
use udf_wanted::Wanted;

// Where the CRC length of a tag stands (ECMA-167 3/7.2), and the pointer of a file set (4/14.1.18).
const COVERED_AT: usize = 10;

const POINTER_AT: usize = 464;

// The bytes of a tag, which its CRC does not cover.
const TAG_BYTES: usize = 16;

// Writes zeros over the pointer of a file set, with a new tag over as many bytes.
fn clear(block: &mut [u8], location: u32, covered: u16)
    requires room { 480 ≤ length block.old }
    requires covered { 16 + covered ≤ length block.old }
    ensures { block.new ≡ retagged location covered (written_at 464 (replicate 16 0) block.old) }
{
    write_at(block, POINTER_AT, &[0; 16]);
    retag(block, covered, location);
}

// The block of a file set without its pointer.
#[tactic(auto, unfolding(udf_file_mends::specs::FileSet::cleared_set))]
fn cleared(alloc: Global, block: &[u8], location: u32, covered: u16) -> Result<Vec<u8>, AllocError>
    requires room { 480 ≤ length block.now }
    requires covered { 16 + covered ≤ length block.now }
    requires stated { covered ≡ number_at 2 block.now 10 }
    ensures block { IfOk result (λ after. after.items ≡ cleared_set location block.now) }
    ensures whole { IfOk result (λ after. length after.items ≡ length block.now) }
{
    let mut after = block.to_vec(alloc)?;
    clear(&mut after, location, covered);
    Ok(after)
}

// Whether the file set holds a pointer to the system stream directory, and that is not kept.
fn loses_pointer(files: &Files) -> bool
    ensures { result ≡ (is_some files.now.set.system && not (is_some files.now.survey.system)) }
{
    files.set.system.is_some() && files.survey.system().is_none()
}

/// Puts the block of the file set without its pointer to the system stream directory, where it holds one that is not kept: the directory
/// is none, or another entry keeps it. `files` are those of a volume that was opened of the image; `block` is lent and has the block size.
/// Only then is a block read.
pub fn put_file_set<B: Bench>(
    alloc: Global,
    bench: &mut B,
    files: &Files,
    wanted: &mut Wanted,
    block: &mut [u8],
) -> Result<(), WorkStop>
    requires over { IsPlannedOver files.now.volume (places_in files.now) (B.files bench.old) }
    requires writable { AreWritable files.now.volume wanted.old }
    requires room { length block.old ≡ files.now.volume.size }
    ensures put { B.tells → let volume = files.now.volume in let image = bytes_of Image (B.held bench.old) in AreFilesOf volume image files.now
        → OnOk result (LookAlike wanted.new (wanted.old ++ differing (disk_of volume.size (B.held bench.old)) (file_set_edits (frame_in volume image) (files_in volume image)))) }
    ensures writable { OnOk result (AreWritable files.now.volume wanted.new) }
    ensures reads { OnlyReads B.files B.held B.faults bench.old bench.new WorkStop.Fault result }
{
    if !loses_pointer(files) {
        return Ok(());
    }
    let at = files.volume.file_set.at;
    let Some(sector) = files.parts.locate(at) else {
        return Ok(());
    };
    read_block(bench, files.volume.size, sector, block)?;
    let covered = Fields::over(block).u16_at(COVERED_AT);
    if block.len() < TAG_BYTES + covered as usize {
        return Ok(());
    }
    let after = cleared(alloc, block, at.block, covered)?;
    put_different(&files.volume, sector, block, &after, wanted)?;
    Ok(())
}
