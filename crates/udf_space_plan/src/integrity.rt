//! The mend of the rule on integrity, number 13 (ECMA-167 3/10.10, UDF 2.2.6): of the prevailing descriptor the counts that are wrong,
//! or a new one in its place or at the front of the extent, and behind that a terminating descriptor. It reads the extent up to the
//! first block that holds no descriptor, and for a new one the primary and the logical volume descriptor.
ghost use Rattle.std.specs.Prelude.{◌≡◌, ◌≤◌, ◌<◌, ◌+◌, ◌^◌, ◌++◌, ◌∷◌, [], ℕ, length, true, Option, OnOk};
ghost use Rattle.udf_file_model.specs.Listing as listing;
ghost use Rattle.udf_file_rules.specs.Right.{IsOfImage, IsRight};
ghost use Rattle.udf_files.specs.Files.{AreFilesOf, AreOverVolume};
ghost use Rattle.udf_integrity.specs.Stated.{States};
ghost use Rattle.udf_model.specs.Image.{block_of};
ghost use Rattle.udf_model.specs.Size.{is_size};
ghost use Rattle.udf_model.specs.Tag.{retagged};
ghost use Rattle.udf_outside.specs.Reads.{OnlyReads};
ghost use Rattle.udf_outside.specs.Sectors.{disk_of};
ghost use Rattle.udf_outside.specs.Stops.{bytes_of};
ghost use Rattle.udf_outside.specs.declared.bench.Role.TheVariants.{Image};
ghost use Rattle.udf_rules_model.specs.Bitmap.{free_blocks as free_blocks_of};
ghost use Rattle.udf_rules_model.specs.Files.{files_in, frame_in};
ghost use Rattle.udf_space_mends.specs.IntegrityMend.{integrity_edits, origin_of};
ghost use Rattle.udf_space_plan.specs.Counts.{corrected_counts, files_by, fresh_counts};
ghost use Rattle.udf_space_plan.specs.Descriptor.{counted, ends_by, made_by};
ghost use Rattle.udf_space_plan.specs.Prevailing.{first_by, prevailing_edits};
ghost use Rattle.udf_space_plan.specs.Runs.{is_run_free};
ghost use Rattle.udf_rules_model.specs.Integrity.{is_integrity};
ghost use Rattle.udf_field.specs.declared.address.Short.{Short};
ghost use Rattle.udf_tree_model.specs.Frame.{Frame};
ghost use Rattle.udf_volume.specs.Laid.{IsLaidOut};
ghost use Rattle.udf_volume.specs.Over.{IsOver};
ghost use Rattle.udf_volume_model.specs.Anchor.{blocks_for};
ghost use Rattle.udf_wanted.specs.Wanted.{LookAlike};
ghost use Rattle.udf_wanted.specs.Writable.{AreWritable, is_free};

use crate::descriptor::{Counts, correct, write_fresh};
use crate::origin::read_origin;
use crate::runs::is_free_run;
use crate::{NoMemory, WorkStop};
use std::alloc::Global;
use udf_file_rules::{Right, right_of};
use udf_files::Files;
use udf_free::free_blocks;
use udf_integrity::{Integrity, integrity_in, prevailing_descriptor};
use udf_outside::Bench;
use udf_plan::write_terminator;
use udf_volume::Volume;
use udf_wanted::Wanted;

/// The bytes of a descriptor of one partition before its implementation use (ECMA-167 3/10.10).
const FRONT: u64 = 88;

// What a new descriptor states, with so many free blocks.
fn counts_of(right: &Right, free: u32) -> Counts
    ensures { right.now.tally.greatest_id + 1 < 2 ^ 64 → result ≡ fresh_counts right.now free }
{
    Counts {
        next_id: right.tally.least_next(),
        free,
        blocks: right.blocks,
        files: right.tally.files,
        directories: right.tally.directories,
    }
}

// The files that a descriptor is to state, which states this: both ways of counting stand.
fn files_left(right: &Right, stated: &Integrity) -> u64
    ensures { result ≡ files_by right.now stated.now }
{
    let files = stated.files as u64;
    if files == right.tally.files || files == right.files_named {
        files
    } else {
        right.tally.files
    }
}

// What a descriptor is to state, which states this.
fn counts_after(right: &Right, stated: &Integrity) -> Counts
    ensures { right.now.tally.greatest_id + 1 < 2 ^ 64 → result ≡ corrected_counts right.now stated.now }
{
    Counts {
        next_id: right.next_id(stated),
        free: right.free.unwrap_or(stated.free),
        blocks: right.blocks,
        files: files_left(right, stated),
        directories: right.tally.directories,
    }
}

// Puts a new descriptor at a sector, which `block` holds then. `block` is lent and has the block size.
fn put_fresh<B: Bench>(
    bench: &mut B,
    volume: &Volume,
    counts: &Counts,
    sector: u32,
    wanted: &mut Wanted,
    block: &mut [u8],
) -> Result<(), WorkStop>
    requires over { IsOver volume.now (B.files bench.old) }
    requires free { is_free volume.now sector ≡ true }
    requires writable { AreWritable volume.now wanted.old }
    requires room { length block.old ≡ volume.now.size }
    ensures put { OnOk result (LookAlike wanted.new (wanted.old ++ (sector, block.new) ∷ [])) }
    ensures made { B.tells → OnOk result (block.new ≡ made_by volume.now.size counts.now
        (origin_of (disk_of volume.now.size (B.held bench.old) volume.now.pvd) (disk_of volume.now.size (B.held bench.old) volume.now.lvd)) sector) }
    ensures writable { OnOk result (AreWritable volume.now wanted.new) }
    ensures room { length block.new ≡ volume.now.size }
    ensures reads { OnlyReads B.files B.held B.faults bench.old bench.new WorkStop.Fault result }
{
    let origin = read_origin(bench, volume, block)?;
    write_fresh(counts, &origin, sector, block);
    wanted.put(sector, block)?;
    Ok(())
}

// Puts a terminating descriptor behind the first block of the extent, where it has a second; `block` holds the first.
fn put_end(volume: &Volume, wanted: &mut Wanted, block: &mut [u8]) -> Result<(), NoMemory>
    requires large { 512 ≤ volume.now.size }
    requires few { volume.now.blocks < 2 ^ 32 }
    requires free { 1 < blocks_for volume.now.size volume.now.integrity.length → is_free volume.now (volume.now.integrity.start + 1) ≡ true }
    requires writable { AreWritable volume.now wanted.old }
    requires room { length block.old ≡ volume.now.size }
    ensures put { OnOk result (LookAlike wanted.new (wanted.old ++ ends_by volume.now.size volume.now.integrity.start block.old (blocks_for volume.now.size volume.now.integrity.length))) }
    ensures writable { OnOk result (AreWritable volume.now wanted.new) }
{
    if volume.blocks_of(volume.integrity) <= 1 {
        return Ok(());
    }
    let sector = volume.integrity.start + 1;
    write_terminator(block, sector);
    wanted.put(sector, block)?;
    Ok(())
}

// Puts the correction of a descriptor at a sector, which `block` holds and which states this.
fn put_corrected(
    volume: &Volume,
    right: &Right,
    stated: &Integrity,
    sector: u32,
    wanted: &mut Wanted,
    block: &mut [u8],
) -> Result<(), NoMemory>
    requires large { 512 ≤ volume.now.size }
    requires small { volume.now.size ≤ 4096 }
    requires free { is_free volume.now sector ≡ true }
    requires fits { 88 + stated.now.use_length ≤ volume.now.size }
    requires writable { AreWritable volume.now wanted.old }
    requires room { length block.old ≡ volume.now.size }
    ensures put { right.now.tally.greatest_id + 1 < 2 ^ 64 → OnOk result (LookAlike wanted.new (wanted.old
        ++ (sector, retagged sector (72 + stated.now.use_length) (counted (corrected_counts right.now stated.now) block.old)) ∷ [])) }
    ensures writable { OnOk result (AreWritable volume.now wanted.new) }
{
    correct(
        &counts_after(right, stated),
        stated.use_length as u16,
        sector,
        block,
    );
    wanted.put(sector, block)?;
    Ok(())
}

// Puts a new descriptor in the first block of the extent, and a terminating one behind it.
fn put_first<B: Bench>(
    bench: &mut B,
    volume: &Volume,
    counts: &Counts,
    wanted: &mut Wanted,
    block: &mut [u8],
) -> Result<(), WorkStop>
    requires over { IsOver volume.now (B.files bench.old) }
    requires laid { IsLaidOut volume.now }
    requires some { 0 < blocks_for volume.now.size volume.now.integrity.length }
    requires writable { AreWritable volume.now wanted.old }
    requires room { length block.old ≡ volume.now.size }
    ensures put { B.tells → OnOk result (LookAlike wanted.new (wanted.old
        ++ first_by volume.now counts.now (origin_of (disk_of volume.now.size (B.held bench.old) volume.now.pvd) (disk_of volume.now.size (B.held bench.old) volume.now.lvd)))) }
    ensures writable { OnOk result (AreWritable volume.now wanted.new) }
    ensures reads { OnlyReads B.files B.held B.faults bench.old bench.new WorkStop.Fault result }
{
    put_fresh(bench, volume, counts, volume.integrity.start, wanted, block)?;
    put_end(volume, wanted, block)?;
    Ok(())
}

// Puts what the prevailing descriptor at a sector wants, which `block` holds. Such a one lies in the extent and is whole; over an
// outside that may answer otherwise each time, that is seen here.
fn put_prevailing<B: Bench>(
    bench: &mut B,
    volume: &Volume,
    right: &Right,
    free: u32,
    sector: u32,
    wanted: &mut Wanted,
    block: &mut [u8],
) -> Result<(), WorkStop>
    requires over { IsOver volume.now (B.files bench.old) }
    requires small { volume.now.size ≤ 4096 }
    requires writable { AreWritable volume.now wanted.old }
    requires room { length block.old ≡ volume.now.size }
    ensures put { B.tells → (f : Frame) → (v : listing.Volume) → (bitmap : Option Short) → IsOfImage volume.now (bytes_of Image (B.held bench.old)) v
        → IsRight f v right.now.blocks bitmap right.now → free ≡ free_blocks_of f v right.now.blocks → block.old ≡ v.disk sector
        → is_run_free volume.now sector 1 ≡ true → is_integrity v.size sector (v.disk sector) ≡ true
        → OnOk result (LookAlike wanted.new (wanted.old ++ prevailing_edits f v right.now.blocks bitmap
        (origin_of (v.disk volume.now.pvd) (v.disk volume.now.lvd)) sector)) }
    ensures writable { OnOk result (AreWritable volume.now wanted.new) }
    ensures reads { OnlyReads B.files B.held B.faults bench.old bench.new WorkStop.Fault result }
{
    let stated = integrity_in(block);
    if right.is_stated(&stated) {
        return Ok(());
    }
    if !is_free_run(volume, sector, 1) {
        return Ok(());
    }
    if !stated.is_formed() {
        let counts = counts_of(right, free);
        put_fresh(bench, volume, &counts, sector, wanted, block)?;
        return Ok(());
    }
    if FRONT + stated.use_length as u64 > volume.size as u64 {
        return Ok(());
    }
    put_corrected(volume, right, &stated, sector, wanted, block)?;
    Ok(())
}

/// Puts what the rule on integrity wants. `block` is lent and has the block size.
pub fn put_integrity<B: Bench>(
    alloc: Global,
    bench: &mut B,
    files: &Files,
    wanted: &mut Wanted,
    block: &mut [u8],
) -> Result<(), WorkStop>
    requires over { IsOver files.now.volume (B.files bench.old) }
    requires laid { IsLaidOut files.now.volume }
    requires size { is_size files.now.volume.size ≡ true }
    requires volume { AreOverVolume files.now.volume files.now }
    requires files { B.tells → AreFilesOf files.now.volume (bytes_of Image (B.held bench.old)) files.now }
    requires writable { AreWritable files.now.volume wanted.old }
    requires room { length block.old ≡ files.now.volume.size }
    ensures put { B.tells → OnOk result (LookAlike wanted.new (wanted.old
        ++ integrity_edits (frame_in files.now.volume (bytes_of Image (B.held bench.old))) (files_in files.now.volume (bytes_of Image (B.held bench.old)))
        files.now.volume.length files.now.volume.bitmap
        (origin_of (block_of files.now.volume.size (bytes_of Image (B.held bench.old)) files.now.volume.pvd)
        (block_of files.now.volume.size (bytes_of Image (B.held bench.old)) files.now.volume.lvd)) files.now.volume.integrity)) }
    ensures writable { OnOk result (AreWritable files.now.volume wanted.new) }
    ensures reads { OnlyReads B.files B.held B.faults bench.old bench.new WorkStop.Fault result }
{
    let volume = &files.volume;
    if volume.integrity.length == 0 {
        return Ok(());
    }
    let free_map = free_blocks(alloc, &files.survey, volume.length)?;
    let free = free_map.free_count();
    let right = right_of(volume, &files.survey, free);
    let prevailing = prevailing_descriptor(bench, volume, block)?;
    let Some(sector) = prevailing else {
        let counts = counts_of(&right, free);
        put_first(bench, volume, &counts, wanted, block)?;
        return Ok(());
    };
    put_prevailing(bench, volume, &right, free, sector, wanted, block)?;
    Ok(())
}
