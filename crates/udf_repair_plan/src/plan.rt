//! The plan of a repair of all rules.
ghost use Rattle.std.specs.Prelude.{◌≡◌, ℕ, ◌++◌, true, Ok, IfOk, OnOk};
ghost use Rattle.udf_model.specs.Bytes.{IsBytes};
ghost use Rattle.udf_model.specs.Size.{is_size};
ghost use Rattle.udf_outside.specs.Reads.{OnlyReads};
ghost use Rattle.udf_outside.specs.Stops.{bytes_of};
ghost use Rattle.udf_outside.specs.declared.bench.Role.TheVariants.{Image};
ghost use Rattle.udf_volume_model.specs.Opened.{plan_of};
ghost use Rattle.udf_volume.specs.Laid.{IsLaidOut};
ghost use Rattle.udf_volume.specs.Over.{IsOver};
ghost use Rattle.udf_files.specs.Files.{AreFilesOf, AreOverVolume};
ghost use Rattle.udf_mended_image.specs.Accepted.{mended, repairing};
ghost use Rattle.udf_blocks.specs.PlanFor.{IsPlanFor};
ghost use Rattle.udf_wanted.specs.Wanted.{LookAlike};
ghost use Rattle.udf_wanted.specs.Writable.{AreWritable};
ghost use Rattle.udf_repair_plan.specs.Draft.{IsDraftFor, IsDraftOf};

use crate::{Draft, Plan, WorkStop};
use std::alloc::{AllocError, Global};
use udf_file_plan::{put_file_set, put_files};
use udf_files::Files;
use udf_outside::Bench;
use udf_space_plan::{put_bitmap, put_integrity};
use udf_volume::Volume;
use udf_wanted::{Wanted, plan_wanted};

// Puts the blocks of a plan.
fn put_plan(volume: &Volume, plan: &Plan, wanted: &mut Wanted) -> Result<(), AllocError>
    requires plan { IsPlanFor volume.now plan.now }
    requires writable { AreWritable volume.now wanted.old }
    ensures put { OnOk result (LookAlike wanted.new (wanted.old ++ plan.now.blocks)) }
    ensures writable { OnOk result (AreWritable volume.now wanted.new) }
{
    for i in 0..plan.len() {
        let (sector, block) = plan.block(i);
        wanted.put(sector, block)?;
    }
    Ok(())
}

/// The blocks in which the mended image differs from the image, for all rules. `files` are those of the volume that the draft is of.
pub fn plan_repair<B: Bench>(
    alloc: Global,
    bench: &mut B,
    files: &Files,
    draft: Draft,
) -> Result<Plan, WorkStop>
    requires over { IsOver files.now.volume (B.files bench.old) }
    requires laid { IsLaidOut files.now.volume }
    requires size { is_size files.now.volume.size ≡ true }
    requires volume { AreOverVolume files.now.volume files.now }
    requires files { B.tells → AreFilesOf files.now.volume (bytes_of Image (B.held bench.old)) files.now }
    requires drafted { B.tells → IsDraftOf files.now.volume (bytes_of Image (B.held bench.old)) draft }
    requires lawful { IsDraftFor files.now.volume draft }
    ensures plan { B.tells → IsBytes (bytes_of Image (B.held bench.old)) → repairing files.now.volume.size (bytes_of Image (B.held bench.old)) ≡ Ok files.now.volume
        → IfOk result (λ plan. plan.blocks ≡ plan_of files.now.volume.size (bytes_of Image (B.held bench.old)) (mended files.now.volume.size (bytes_of Image (B.held bench.old)))) }
    ensures lawful { IfOk result (IsPlanFor files.now.volume) }
    ensures reads { OnlyReads B.files B.held B.faults bench.old bench.new WorkStop.Fault result }
{
    let Draft { mut wanted, own } = draft;
    let volume = &files.volume;
    let mut block = vec![in alloc; 0u8; volume.size as usize]?;
    put_files(alloc, bench, files, &mut wanted, &mut block)?;
    put_file_set(alloc, bench, files, &mut wanted, &mut block)?;
    put_bitmap(alloc, bench, files, &mut wanted, &mut block)?;
    put_integrity(alloc, bench, files, &mut wanted, &mut block)?;
    put_plan(volume, &own, &mut wanted)?;
    plan_wanted(alloc, bench, volume, &wanted, &mut block)
}
