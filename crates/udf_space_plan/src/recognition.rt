//! The mend of the rule on the recognition sequence, number 1 (ECMA-167 2/8.3, 3/9.1): its first three slots become a beginning, a
//! volume of the edition that the partition descriptor names, and an end. It reads what the rule reads.
ghost use Rattle.std.specs.Prelude.{◌≡◌, ◌++◌, length, OnOk};
ghost use Rattle.udf_model.specs.Image.{block_of};
ghost use Rattle.udf_outside.specs.Stops.{bytes_of};
ghost use Rattle.udf_outside.specs.Reads.{OnlyReads};
ghost use Rattle.udf_outside.specs.declared.bench.Role.TheVariants.{Image};
ghost use Rattle.udf_rules_model.specs.Findings.{recognition_of};
ghost use Rattle.udf_space_mends.specs.SlotMend.{recognition_edits};
ghost use Rattle.udf_volume.specs.Taken.{IsOpenOver, IsOpenedOf};
ghost use Rattle.udf_wanted.specs.Wanted.{LookAlike};
ghost use Rattle.udf_wanted.specs.Writable.{AreWritable};

use crate::WorkStop;
use crate::runs::is_free_run;
use crate::slots::{blocks_in_slot, first_sector, put_sequence};
use std::alloc::Global;
use udf_outside::Bench;
use udf_rules::{Findings, check_recognition};
use udf_volume::Opened;
use udf_wanted::Wanted;

/// Puts what the rule on the recognition sequence wants. `block` is lent and has the block size.
pub fn put_recognition<B: Bench>(
    alloc: Global,
    bench: &mut B,
    opened: &Opened,
    wanted: &mut Wanted,
    block: &mut [u8],
) -> Result<(), WorkStop>
    requires over { IsOpenOver opened.now (B.files bench.old) }
    requires opened { B.tells → IsOpenedOf (bytes_of Image (B.held bench.old)) opened.now }
    requires writable { AreWritable opened.now.volume wanted.old }
    requires room { length block.old ≡ opened.now.volume.size }
    ensures put { B.tells → OnOk result (LookAlike wanted.new (wanted.old
        ++ recognition_edits (recognition_of opened.now.volume (bytes_of Image (B.held bench.old)))
        (block_of opened.now.volume.size (bytes_of Image (B.held bench.old)) opened.now.volume.pd))) }
    ensures writable { OnOk result (AreWritable opened.now.volume wanted.new) }
    ensures reads { OnlyReads B.files B.held B.faults bench.old bench.new WorkStop.Fault result }
{
    let volume = &opened.volume;
    let mut findings = Findings::none(alloc);
    check_recognition(alloc, bench, opened, block, &mut findings)?;
    if findings.is_empty() {
        return Ok(());
    }
    let size = volume.size;
    // Slots of a broken rule are clear; over an outside that may answer otherwise each time, that is seen here.
    if !is_free_run(volume, first_sector(size, 0), 3 * blocks_in_slot(size)) {
        return Ok(());
    }
    let digit = findings.get(0).second;
    put_sequence(volume, digit, wanted, block)?;
    Ok(())
}
