//! The mend of the rule on the space bitmap, number 12 (ECMA-167 4/14.12, UDF 2.3.8): its extent gets a bitmap of the blocks that are
//! free after all mends, whose tag has the version and the serial number of the logical volume descriptor's. What stands behind the
//! bits stays. It reads the extent of the bitmap, and where the rule is broken once more, with that descriptor and a last block that
//! the extent does not fill.
ghost use Rattle.std.specs.Prelude.{◌≡◌, ◌++◌, ℕ, IfOk, OnOk, Some, length, true, vec_len};
ghost use Rattle.udf_field.specs.declared.address.Addr.{Addr};
ghost use Rattle.udf_files.specs.Files.{AreFilesOf, AreOverVolume, places_in};
ghost use Rattle.udf_free.specs.Free.{StandsWhole};
ghost use Rattle.udf_model.specs.Image.{block_of};
ghost use Rattle.udf_model.specs.Size.{is_size};
ghost use Rattle.udf_outside.specs.Reads.{OnlyReads};
ghost use Rattle.udf_outside.specs.Stops.{bytes_of};
ghost use Rattle.udf_outside.specs.declared.bench.Role.TheVariants.{Image};
ghost use Rattle.udf_rules_model.specs.Files.{files_in, frame_in};
ghost use Rattle.udf_space_mends.specs.BitmapMend.{bitmap_edits};
ghost use Rattle.udf_space_plan.specs.Bitmap.{bitmap_over};
ghost use Rattle.udf_volume.specs.Laid.{IsLaidOut};
ghost use Rattle.udf_volume.specs.Over.{IsOver};
ghost use Rattle.udf_volume_model.specs.Layout.{is_bitmap};
ghost use Rattle.udf_wanted.specs.Wanted.{LookAlike};
ghost use Rattle.udf_wanted.specs.Writable.{AreWritable, is_free};

use crate::WorkStop;
use crate::extent::put_extent;
use std::alloc::Global;
use udf_field::{Fields, Short};
use udf_files::Files;
use udf_free::{bitmap_verdict, free_blocks, read_area};
use udf_layer::Parts;
use udf_outside::{Bench, read_block};
use udf_space::Bitmap;
use udf_volume::Volume;
use udf_wanted::Wanted;

/// Where the version and the serial number stand in a tag (ECMA-167 3/7.2).
const VERSION: usize = 2;

const SERIAL: usize = 6;

// The bytes of the extent of a bitmap, with another one written over them. `block` is lent and has the block size.
fn area_with<B: Bench, P: Parts>(
    alloc: Global,
    bench: &mut B,
    volume: &Volume,
    parts: &P,
    extent: Short,
    free: &Bitmap,
    block: &mut [u8],
) -> Result<Vec<u8>, WorkStop>
    requires over { IsOver volume.now (B.files bench.old) }
    requires free { (a : Addr) (s : ℕ) → P.place parts.now a ≡ Some s → is_free volume.now s ≡ true }
    requires placed { StandsWhole (P.place parts.now) volume.now.length }
    requires extent { is_bitmap volume.now.size volume.now.length extent.length extent.block ≡ true }
    requires bits { length free.now ≡ volume.now.length }
    requires room { length block.old ≡ volume.now.size }
    ensures area { B.tells → IfOk result (λ area. area.items ≡ bitmap_over volume.now (B.held bench.old) (P.place parts.now) extent free.now) }
    ensures long { IfOk result (λ area. vec_len area ≡ extent.length) }
    ensures room { length block.new ≡ volume.now.size }
    ensures reads { OnlyReads B.files B.held B.faults bench.old bench.new WorkStop.Fault result }
{
    let mut area = read_area(alloc, bench, parts, volume.size, volume.length, extent)?;
    read_block(bench, volume.size, volume.lvd, block)?;
    let logical = Fields::over(block);
    let version = logical.u16_at(VERSION);
    let serial = logical.u16_at(SERIAL);
    free.encode(version, serial, extent.block, &mut area);
    Ok(area)
}

/// The mend of the rule on the space bitmap: puts each block of the bitmap's extent, also those that stay, and nothing where the rule
/// holds or the partition names no bitmap. `block` is lent and has the block size.
pub fn put_bitmap<B: Bench>(
    alloc: Global,
    bench: &mut B,
    files: &Files,
    wanted: &mut Wanted,
    block: &mut [u8],
) -> Result<(), WorkStop>
    requires over { IsOver files.now.volume (B.files bench.old) }
    requires laid { IsLaidOut files.now.volume }
    requires size { is_size files.now.volume.size ≡ true }
    requires volume { AreOverVolume files.now.volume files.now }
    requires free { (a : Addr) (s : ℕ) → places_in files.now a ≡ Some s → is_free files.now.volume s ≡ true }
    requires files { B.tells → AreFilesOf files.now.volume (bytes_of Image (B.held bench.old)) files.now }
    requires writable { AreWritable files.now.volume wanted.old }
    requires room { length block.old ≡ files.now.volume.size }
    ensures put { B.tells → OnOk result (LookAlike wanted.new (wanted.old
        ++ bitmap_edits (frame_in files.now.volume (bytes_of Image (B.held bench.old))) (files_in files.now.volume (bytes_of Image (B.held bench.old)))
        (block_of files.now.volume.size (bytes_of Image (B.held bench.old)) files.now.volume.lvd) files.now.volume.length files.now.volume.bitmap)) }
    ensures writable { OnOk result (AreWritable files.now.volume wanted.new) }
    ensures reads { OnlyReads B.files B.held B.faults bench.old bench.new WorkStop.Fault result }
{
    let volume = &files.volume;
    let Some(extent) = volume.bitmap else {
        return Ok(());
    };
    let free = free_blocks(alloc, &files.survey, volume.length)?;
    let verdict = bitmap_verdict(
        alloc,
        bench,
        &files.parts,
        volume.size,
        volume.length,
        extent,
        &free,
    )?;
    if verdict.holds() {
        return Ok(());
    }
    let area = area_with(alloc, bench, volume, &files.parts, extent, &free, block)?;
    put_extent(bench, volume, &files.parts, extent, &area, wanted, block)?;
    Ok(())
}
