//! An open log is replayed.
ghost use Rattle.std.specs.Prelude.{◌≡◌, ◌≢◌, ◌≤◌, ◌<◌, ◌+◌, ◌*◌, ◌/◌, ◌^◌, true, length, drop, None, OnOk, IfOk, IfErr, IsErrOf};
ghost use Rattle.udf_outside.specs.Files.{IsAttached, IsWritable};
ghost use Rattle.udf_outside.specs.Stops.{bytes_of, IsSynced, LeavesOnly, Writes};
ghost use Rattle.udf_outside.specs.Causes.{HasCause};
ghost use Rattle.udf_outside.specs.Reads.{OnlyReads, failed};
ghost use Rattle.udf_outside.specs.declared.bench.Role.TheVariants.{Image, Side};
ghost use Rattle.udf_redo.specs.Log.{head_in, state_of, closed, is_head, log_length};
ghost use Rattle.udf_redo.specs.Settled.{IsOpenLog, applied_to, clash_in, replay_answer};
ghost use Rattle.udf_redo.specs.Runs.{IsApplying};
ghost use Rattle.udf_redo.specs.Faults.{HasFault, Answers, IsReplayStop};
ghost use Rattle.udf_redo.specs.declared.side.SideState.TheVariants.{Closed, Open};
ghost use Rattle.udf_redo.specs.declared.stop.RedoStop.TheVariants.{Memory};

use crate::gate::close_gate;
use crate::record::read_record;
use crate::seal::digest_of;
use crate::{Clash, LogHead, RedoStop};
use std::alloc::Global;
use udf_outside::{Bench, Failed, Role};

/// In what the image differs from the one that the log was made of. `image` is its length in bytes; `block` is lent and has
/// the block size.
fn clash_of<B: Bench>(
    bench: &mut B,
    head: &LogHead,
    image: u64,
    block: &mut [u8],
) -> Result<Option<Clash>, Failed>
    requires attached { IsAttached Image (B.files bench.old) }
    requires image { image ≡ (B.files bench.old).image.size }
    requires lawful { is_head head.now ≡ true }
    requires room { length block.old ≡ head.now.size }
    ensures clash { B.tells → IfOk result (λ clash. clash ≡ clash_in head.now (bytes_of Image (B.held bench.old))) }
    ensures reads { OnlyReads B.files B.held B.faults bench.old bench.new failed result }
{
    let blocks = image / head.size as u64;
    if blocks != head.blocks as u64 {
        return Ok(Some(Clash::Blocks {
            log: head.blocks,
            image: blocks,
        }));
    }
    let seal = digest_of(bench, head.size, head.first, head.sealed, block)?;
    if seal != head.seal {
        return Ok(Some(Clash::Seal {
            log: head.seal,
            image: seal,
        }));
    }
    Ok(None)
}

/// Writes a block where it lies in the image; a bench that tells nothing may give records that lie anywhere.
fn write_inside<B: Bench>(bench: &mut B, image: u64, start: u64, block: &[u8]) -> Result<(), Failed>
    requires writable { IsWritable Image (B.files bench.old) }
    requires image { image ≡ (B.files bench.old).image.size }
    ensures writes { B.tells → start + length block.now ≤ image → Writes Image start block.now (B.held bench.old) (B.held bench.new) result }
    ensures files { B.files bench.new ≡ B.files bench.old }
    ensures cause { HasCause (B.faults bench.old) (B.faults bench.new) result }
{
    if start > image || block.len() as u64 > image - start {
        return Ok(());
    }
    bench.write_at(Role::Image, start, block)
}

/// Writes every record of the open log into the image, and brings the image to the medium.
fn replay_records<B: Bench>(
    bench: &mut B,
    head: &LogHead,
    image: u64,
    block: &mut [u8],
) -> Result<(), Failed>
    requires writable { IsWritable Image (B.files bench.old) }
    requires attached { IsAttached Side (B.files bench.old) }
    requires image { image ≡ (B.files bench.old).image.size }
    requires lawful { is_head head.now ≡ true }
    requires within { log_length head.now ≤ (B.files bench.old).side.size }
    requires room { length block.old ≡ head.now.size }
    requires log { B.tells → IsOpenLog (bytes_of Side (B.held bench.old)) (bytes_of Image (B.held bench.old)) }
    requires head { B.tells → head_in (bytes_of Side (B.held bench.old)) ≡ head.now }
    requires synced { B.tells → IsSynced (B.held bench.old) }
    ensures moments { B.tells → LeavesOnly (B.held bench.old) (B.held bench.new)
        (IsApplying (bytes_of Side (B.held bench.old)) (bytes_of Image (B.held bench.old))) }
    ensures image { B.tells → OnOk result (bytes_of Image (B.held bench.new)
        ≡ applied_to (bytes_of Side (B.held bench.old)) (bytes_of Image (B.held bench.old))) }
    ensures again { B.tells → applied_to (bytes_of Side (B.held bench.old)) (bytes_of Image (B.held bench.new))
        ≡ applied_to (bytes_of Side (B.held bench.old)) (bytes_of Image (B.held bench.old)) }
    ensures side { B.tells → bytes_of Side (B.held bench.new) ≡ bytes_of Side (B.held bench.old) }
    ensures log { B.tells → IsOpenLog (bytes_of Side (B.held bench.old)) (bytes_of Image (B.held bench.new)) }
    ensures synced { B.tells → OnOk result (IsSynced (B.held bench.new)) }
    ensures files { B.files bench.new ≡ B.files bench.old }
    ensures cause { HasCause (B.faults bench.old) (B.faults bench.new) result }
{
    for k in 0..head.records {
        let sector = read_record(bench, head, k, block)?;
        write_inside(bench, image, sector as u64 * head.size as u64, block)?;
    }
    bench.sync(Role::Image)
}

/// Writes the records of the open log with this head into the image, whose length in bytes is `image`, closes the log, and
/// answers the number of records. It takes no memory once it has begun to write.
pub fn replay<B: Bench>(
    alloc: Global,
    bench: &mut B,
    head: &LogHead,
    image: u64,
) -> Result<u32, RedoStop>
    requires image { IsWritable Image (B.files bench.old) }
    requires side { IsWritable Side (B.files bench.old) }
    requires image_length { image ≡ (B.files bench.old).image.size }
    requires lawful { is_head head.now ≡ true }
    requires within { log_length head.now ≤ (B.files bench.old).side.size }
    requires log { B.tells → state_of (bytes_of Side (B.held bench.old)) ≡ Ok (Open head.now) }
    requires synced { B.tells → IsSynced (B.held bench.old) }
    ensures answer { B.tells → Answers (replay_answer head.now (bytes_of Image (B.held bench.old))) result }
    ensures moments { B.tells → IsOpenLog (bytes_of Side (B.held bench.old)) (bytes_of Image (B.held bench.old))
        → LeavesOnly (B.held bench.old) (B.held bench.new)
        (IsApplying (bytes_of Side (B.held bench.old)) (bytes_of Image (B.held bench.old))) }
    ensures another { B.tells → clash_in head.now (bytes_of Image (B.held bench.old)) ≢ None → B.held bench.new ≡ B.held bench.old }
    ensures image { B.tells → OnOk result (bytes_of Image (B.held bench.new)
        ≡ applied_to (bytes_of Side (B.held bench.old)) (bytes_of Image (B.held bench.old))) }
    ensures side { B.tells → OnOk result (bytes_of Side (B.held bench.new) ≡ closed (bytes_of Side (B.held bench.old))) }
    ensures closed { B.tells → OnOk result (state_of (bytes_of Side (B.held bench.new)) ≡ Ok Closed) }
    ensures synced { B.tells → OnOk result (IsSynced (B.held bench.new)) }
    ensures records { IfOk result (λ records. records ≡ head.now.records) }
    ensures files { B.files bench.new ≡ B.files bench.old }
    ensures memory { IsErrOf result Memory → B.held bench.new ≡ B.held bench.old }
    ensures stops { IfErr result IsReplayStop }
    ensures cause { HasFault (B.faults bench.old) (B.faults bench.new) result }
{
    let mut block = vec![in alloc; 0u8; head.size as usize]?;
    if let Some(clash) = clash_of(bench, head, image, &mut block)? {
        return Err(RedoStop::WrongImage(clash));
    }
    replay_records(bench, head, image, &mut block)?;
    close_gate(bench)?;
    Ok(head.records)
}
