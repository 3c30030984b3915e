//! A plan is written as a log behind a closed gate.
ghost use Rattle.std.specs.Prelude.{◌≡◌, ◌≤◌, ◌<◌, ◌+◌, ◌*◌, ◌/◌, ◌^◌, true, length, OnOk, IfOk, IsErrOf};
ghost use Rattle.udf_outside.specs.Files.{IsAttached, IsWritable, resized};
ghost use Rattle.udf_outside.specs.Stops.{bytes_of, IsSynced, LeavesOnly};
ghost use Rattle.udf_outside.specs.Reads.{OnlyReads, failed};
ghost use Rattle.udf_outside.specs.declared.bench.Role.TheVariants.{Image, Side};
ghost use Rattle.udf_redo.specs.Log.{head_in, records_of, opened, state_of};
ghost use Rattle.udf_redo.specs.Settled.{IsOpenLog, IsFree};
ghost use Rattle.udf_redo.specs.Sealing.{head_for, IsLoggable};
ghost use Rattle.udf_redo.specs.Runs.{IsLogging};
ghost use Rattle.udf_redo.specs.Faults.{HasFault, OnlyFaultsOrMemory};
ghost use Rattle.udf_redo.specs.declared.side.SideState.TheVariants.{Closed};
ghost use Rattle.udf_redo.specs.declared.stop.RedoStop.TheVariants.{Memory};

use crate::body::write_body;
use crate::front::make_front;
use crate::seal::digest_of;
use crate::{LogHead, RedoStop, SealedRun};
use std::alloc::Global;
use udf_blocks::Plan;
use udf_outside::{Bench, Failed};

/// Writes the plan as a log of the image, behind a closed gate. `blocks` is the number of whole blocks of the image, and the log
/// seals a run of them.
pub fn write_log<B: Bench>(
    alloc: Global,
    bench: &mut B,
    plan: &Plan,
    blocks: u32,
    sealed: SealedRun,
) -> Result<(), RedoStop>
    requires image { IsAttached Image (B.files bench.old) }
    requires side { IsWritable Side (B.files bench.old) }
    requires plan { IsLoggable blocks sealed plan.now }
    requires image_blocks { (B.files bench.old).image.size / plan.now.size ≡ blocks }
    requires free { B.tells → IsFree (bytes_of Side (B.held bench.old)) }
    requires synced { B.tells → IsSynced (B.held bench.old) }
    ensures moments { B.tells → LeavesOnly (B.held bench.old) (B.held bench.new) (IsLogging (bytes_of Image (B.held bench.old))) }
    ensures closed { B.tells → OnOk result (state_of (bytes_of Side (B.held bench.new)) ≡ Ok Closed) }
    ensures log { B.tells → OnOk result (IsOpenLog (opened (bytes_of Side (B.held bench.new))) (bytes_of Image (B.held bench.old))) }
    ensures head { B.tells → OnOk result (head_in (bytes_of Side (B.held bench.new))
        ≡ head_for plan.now blocks sealed (bytes_of Image (B.held bench.old))) }
    ensures records { B.tells → OnOk result (records_of (bytes_of Side (B.held bench.new)) ≡ plan.now.blocks) }
    ensures image { B.tells → bytes_of Image (B.held bench.new) ≡ bytes_of Image (B.held bench.old) }
    ensures synced { B.tells → OnOk result (IsSynced (B.held bench.new)) }
    ensures files { B.files bench.new ≡ resized Side (B.files bench.new).side.size (B.files bench.old) }
    ensures memory { IsErrOf result Memory → B.held bench.new ≡ B.held bench.old }
    ensures memory_files { IsErrOf result Memory → B.files bench.new ≡ B.files bench.old }
    ensures only_faults { OnlyFaultsOrMemory result }
    ensures cause { HasFault (B.faults bench.old) (B.faults bench.new) result }
{
    let mut block = vec![in alloc; 0u8; plan.size() as usize]?;
    let head = head_of(bench, plan, blocks, sealed, &mut block)?;
    make_front(bench)?;
    write_body(bench, &head, plan)?;
    Ok(())
}

fn head_of<B: Bench>(
    bench: &mut B,
    plan: &Plan,
    blocks: u32,
    sealed: SealedRun,
    block: &mut [u8],
) -> Result<LogHead, Failed>
    requires attached { IsAttached Image (B.files bench.old) }
    requires within { (sealed.first + sealed.count) * plan.now.size ≤ (B.files bench.old).image.size }
    requires sealed_inside { sealed.first + sealed.count ≤ blocks }
    requires room { length block.old ≡ plan.now.size }
    ensures head { B.tells → IfOk result (λ head. head ≡ head_for plan.now blocks sealed (bytes_of Image (B.held bench.old))) }
    ensures size { IfOk result (λ head. head.size ≡ plan.now.size) }
    ensures numbers { IfOk result (λ _. (blocks < 2 ^ 32) × (length plan.now.blocks < 2 ^ 32)) }
    ensures reads { OnlyReads B.files B.held B.faults bench.old bench.new failed result }
{
    let size = plan.size();
    let seal = digest_of(bench, size, sealed.first, sealed.count, block)?;
    Ok(LogHead {
        size,
        blocks,
        first: sealed.first,
        sealed: sealed.count,
        seal,
        records: plan.len(),
    })
}
