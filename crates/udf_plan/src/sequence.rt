//! The mend of the rule on sequences (ECMA-167 3/8.4.2, 3/8.4.3): the kept descriptors are copied, relocated, to the other
//! extent, and then the block that ends them. It reads both extents.
ghost use Rattle.std.specs.Prelude.{◌≡◌, ℕ, true, ◌+◌, ◌<◌, ◌++◌, length, OnOk};
ghost use Rattle.udf_model.specs.Tag.{is_id, whole_id as whole_in};
ghost use Rattle.udf_outside.specs.Stops.{bytes_of};
ghost use Rattle.udf_outside.specs.Reads.{OnlyReads};
ghost use Rattle.udf_outside.specs.Sectors.{disk_of};
ghost use Rattle.udf_outside.specs.declared.bench.Role.TheVariants.{Image};
ghost use Rattle.udf_volume_model.specs.Mended.{end_block};
ghost use Rattle.udf_volume.specs.Over.{IsOver};
ghost use Rattle.udf_volume.specs.Laid.{IsLaidOut};
ghost use Rattle.udf_plan.specs.Stated.{moved, copied_stated, sequence_stated};
ghost use Rattle.udf_wanted.specs.Wanted.{LookAlike};
ghost use Rattle.udf_wanted.specs.Writable.{AreFreeFrom, AreWritable};

use crate::WorkStop;
use crate::copy::put_copy;
use crate::terminator::write_terminator;
use std::alloc::Global;
use udf_field::{relocate, whole_id};
use udf_outside::{Bench, read_block};
use udf_volume::{TERMINATING, Volume, sequence_verdict};
use udf_wanted::Wanted;

// Puts the copies of the kept descriptors, from one sector on, at another sector on.
fn put_copies<B: Bench>(
    bench: &mut B,
    volume: &Volume,
    from: u32,
    to: u32,
    wanted: &mut Wanted,
    block: &mut [u8],
) -> Result<(), WorkStop>
    requires over { IsOver volume.now (B.files bench.old) }
    requires inside { from + volume.now.count < volume.now.blocks }
    requires free { AreFreeFrom volume.now to volume.now.count }
    requires writable { AreWritable volume.now wanted.old }
    requires room { length block.old ≡ volume.now.size }
    ensures put { B.tells → OnOk result (LookAlike wanted.new
        (wanted.old ++ moved (disk_of volume.now.size (B.held bench.old)) from to volume.now.count)) }
    ensures writable { OnOk result (AreWritable volume.now wanted.new) }
    ensures reads { OnlyReads B.files B.held B.faults bench.old bench.new WorkStop.Fault result }
{
    for i in 0..volume.count {
        put_copy(bench, volume, from + i, to + i, wanted, block)?;
    }
    Ok(())
}

// Whether a block holds a whole terminating descriptor.
fn is_terminator(block: &[u8]) -> bool
    ensures { result ≡ is_id 8 (whole_in block.now) }
{
    match whole_id(block) {
        Some(id) => id == TERMINATING,
        None => false,
    }
}

// Makes the block that ends the copy at a sector, by the block that ended the list and by that of the logical volume
// descriptor.
fn make_end<B: Bench>(
    bench: &mut B,
    volume: &Volume,
    source: u32,
    target: u32,
    block: &mut [u8],
) -> Result<(), WorkStop>
    requires over { IsOver volume.now (B.files bench.old) }
    requires inside { source < volume.now.blocks }
    requires room { length block.old ≡ volume.now.size }
    ensures made { B.tells → OnOk result (block.new ≡ end_block volume.now.size target
        (disk_of volume.now.size (B.held bench.old) source)
        (disk_of volume.now.size (B.held bench.old) volume.now.lvd)) }
    ensures reads { OnlyReads B.files B.held B.faults bench.old bench.new WorkStop.Fault result }
{
    read_block(bench, volume.size, source, block)?;
    if is_terminator(block) {
        relocate(block, target);
        return Ok(());
    }
    read_block(bench, volume.size, volume.lvd, block)?;
    write_terminator(block, target);
    Ok(())
}

// Puts the copies of the kept descriptors and the block that ends them.
fn put_copied<B: Bench>(
    bench: &mut B,
    volume: &Volume,
    wanted: &mut Wanted,
    block: &mut [u8],
) -> Result<(), WorkStop>
    requires over { IsOver volume.now (B.files bench.old) }
    requires laid { IsLaidOut volume.now }
    requires writable { AreWritable volume.now wanted.old }
    requires room { length block.old ≡ volume.now.size }
    ensures put { B.tells → OnOk result (LookAlike wanted.new
        (wanted.old ++ copied_stated volume.now (bytes_of Image (B.held bench.old)))) }
    ensures writable { OnOk result (AreWritable volume.now wanted.new) }
    ensures reads { OnlyReads B.files B.held B.faults bench.old bench.new WorkStop.Fault result }
{
    let from = volume.kept_extent().start;
    let to = volume.other_extent().start;
    put_copies(bench, volume, from, to, wanted, block)?;
    let target = to + volume.count;
    make_end(bench, volume, from + volume.count, target, block)?;
    wanted.put(target, block)?;
    Ok(())
}

/// Puts what the rule on sequences wants. `block` is lent and has the block size.
pub(crate) fn put_sequence<B: Bench>(
    alloc: Global,
    bench: &mut B,
    volume: &Volume,
    wanted: &mut Wanted,
    block: &mut [u8],
) -> Result<(), WorkStop>
    requires over { IsOver volume.now (B.files bench.old) }
    requires laid { IsLaidOut volume.now }
    requires writable { AreWritable volume.now wanted.old }
    requires room { length block.old ≡ volume.now.size }
    ensures put { B.tells → OnOk result (LookAlike wanted.new
        (wanted.old ++ sequence_stated volume.now (bytes_of Image (B.held bench.old)))) }
    ensures writable { OnOk result (AreWritable volume.now wanted.new) }
    ensures reads { OnlyReads B.files B.held B.faults bench.old bench.new WorkStop.Fault result }
{
    let verdict = sequence_verdict(alloc, bench, volume, block)?;
    if verdict.holds {
        return Ok(());
    }
    put_copied(bench, volume, wanted, block)?;
    Ok(())
}
