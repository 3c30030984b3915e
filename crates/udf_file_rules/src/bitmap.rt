//! The rule on the space bitmap, number 12 (ECMA-167 4/14.12).
//!
//! Binds: volumes whose partition names a space bitmap. The bitmap has a whole tag of identifier 264 at its first block's place, its
//! counts are those of the partition's blocks, and a bit is 1 exactly where its block is free: neither fixed nor claimed by a kept
//! entry after its mend. Bits past the blocks are not ruled.
//! Reads: each block of the bitmap's extent, once.
//! Finds: block 0 of the base partition, with the number of wrong bits, or of all where the header is wrong, and the number of free
//! blocks.
//! Mends: the bitmap is written anew, with the free blocks that are left after all other mends.
//! Relies on: the survey of the files, and a bitmap's extent that lies in the partition and holds its bits.
ghost use Rattle.std.specs.Prelude.{◌≡◌, ◌<◌, ◌/◌, ◌++◌, ℕ, Some, length, map, OnOk};
ghost use Rattle.udf_field.specs.declared.address.Addr.{Addr};
ghost use Rattle.udf_outside.specs.Stops.{bytes_of};
ghost use Rattle.udf_outside.specs.Reads.{OnlyReads};
ghost use Rattle.udf_outside.specs.declared.bench.Role.TheVariants.{Image};
ghost use Rattle.udf_file_model.specs.Listing.{volume_of};
ghost use Rattle.udf_tree_model.specs.Frame.{Frame};
ghost use Rattle.udf_volume.specs.Laid.{IsLaidOut};
ghost use Rattle.udf_volume.specs.Over.{IsOver};
ghost use Rattle.udf_rules.specs.Findings.{finding_of};
ghost use Rattle.udf_rules_model.specs.Bitmap.{bitmap_findings};
ghost use Rattle.udf_free.specs.Free.{StandsWhole, free_bits};
ghost use Rattle.udf_file_rules.specs.Space.{bitmap_report};

use std::alloc::{AllocError, Global};
use udf_field::Addr;
use udf_free::{BitmapVerdict, bitmap_verdict};
use udf_layer::Parts;
use udf_outside::Bench;
use udf_rules::{Finding, Findings, Place};
use udf_space::Bitmap;
use udf_volume::{Volume, WorkStop};

/// The number of the rule.
const RULE: u8 = 12;

// Adds what is reported of a verdict, with the number of free blocks.
#[tactic(auto, unfolding(crate::specs::Space::bitmap_report))]
fn report_bitmap(
    findings: &mut Findings,
    verdict: &BitmapVerdict,
    free: u32,
) -> Result<(), AllocError>
    ensures { OnOk result (findings.new ≡ findings.old ++ bitmap_report verdict.now free) }
{
    if verdict.holds() {
        return Ok(());
    }
    findings.push(Finding {
        rule: RULE,
        place: Place::At(Addr { part: 0, block: 0 }),
        first: verdict.wrong as u64,
        second: free as u64,
    })
}

/// Adds what breaks the rule on the space bitmap; `free` has the bits that are to stand there.
pub(crate) fn check_bitmap<B: Bench, P: Parts>(
    alloc: Global,
    bench: &mut B,
    volume: &Volume,
    parts: &P,
    free: &Bitmap,
    findings: &mut Findings,
) -> Result<(), WorkStop>
    requires over { IsOver volume.now (B.files bench.old) }
    requires laid { IsLaidOut volume.now }
    requires inside { (a : Addr) (s : ℕ) → P.place parts.now a ≡ Some s → s < (B.files bench.old).image.size / volume.now.size }
    requires placed { StandsWhole (P.place parts.now) volume.now.length }
    requires free { length free.now ≡ volume.now.length }
    ensures found { B.tells → (f : Frame) → free.now ≡ free_bits f (volume_of volume.now.size (bytes_of Image (B.held bench.old)) (P.place parts.now)) volume.now.length
        → OnOk result (findings.new ≡ findings.old
        ++ map finding_of (bitmap_findings f (volume_of volume.now.size (bytes_of Image (B.held bench.old)) (P.place parts.now)) volume.now.length volume.now.bitmap)) }
    ensures reads { OnlyReads B.files B.held B.faults bench.old bench.new WorkStop.Fault result }
{
    let Some(extent) = volume.bitmap else {
        return Ok(());
    };
    let verdict = bitmap_verdict(
        alloc,
        bench,
        parts,
        volume.size,
        volume.length,
        extent,
        free,
    )?;
    report_bitmap(findings, &verdict, free.free_count())?;
    Ok(())
}
