// The mended content of a directory, over the blocks of its list.
ghost use Rattle.std.specs.Prelude.{◌≡◌, ◌+◌, ◌*◌, ◌^◌, ◌≤◌, ◌<◌, ◌∷◌, [], IfOk, OnOk, drop, length, take};
ghost use Rattle.udf_model.specs.Bytes.{written_at};
ghost use Rattle.udf_outside.specs.Reads.{OnlyReads};
ghost use Rattle.udf_file_model.specs.Content.{block_at};
ghost use Rattle.udf_file_model.specs.Front.{blocks_for};
ghost use Rattle.udf_wanted.specs.Writable.{AreWritable};
ghost use Rattle.udf_file_plan.specs.Base.{IsPlannedOver, PutsOf, listed};
ghost use Rattle.udf_file_plan.specs.Over.{spread_at, spread_over};

use crate::WorkStop;
use crate::different::put_different;
use crate::entry::write_at;
use std::alloc::{AllocError, Global};
use udf_entry::List;
use udf_field::Addr;
use udf_layer::Parts;
use udf_outside::{Bench, read_block};
use udf_volume::Volume;
use udf_wanted::Wanted;

// A block with bytes over its front.
fn with_front(alloc: Global, block: &[u8], bytes: &[u8]) -> Result<Vec<u8>, AllocError>
    requires { length bytes.now ≤ length block.now }
    ensures block { IfOk result (λ after. after.items ≡ written_at 0 bytes.now block.now) }
    ensures whole { IfOk result (λ after. length after.items ≡ length block.now) }
{
    let mut after = block.to_vec(alloc)?;
    write_at(&mut after, 0, bytes);
    Ok(after)
}

// Puts bytes over the front of the block at an address. `room` is lent and has the block size.
fn put_front<B: Bench, P: Parts>(
    alloc: Global,
    bench: &mut B,
    volume: &Volume,
    parts: &P,
    at: Addr,
    bytes: &[u8],
    wanted: &mut Wanted,
    room: &mut [u8],
) -> Result<(), WorkStop>
    requires over { IsPlannedOver volume.now (P.place parts.now) (B.files bench.old) }
    requires room { length room.old ≡ volume.now.size }
    requires fits { length bytes.now ≤ volume.now.size }
    requires writable { AreWritable volume.now wanted.old }
    ensures put { B.tells → let v = listed volume.now (B.held bench.old) (P.place parts.now) in
        OnOk result (PutsOf v wanted.old wanted.new ((at, written_at 0 bytes.now (block_at v at)) ∷ [])) }
    ensures writable { OnOk result (AreWritable volume.now wanted.new) }
    ensures room { length room.new ≡ length room.old }
    ensures reads { OnlyReads B.files B.held B.faults bench.old bench.new WorkStop.Fault result }
{
    let Some(sector) = parts.locate(at) else {
        return Ok(());
    };
    read_block(bench, volume.size, sector, room)?;
    let after = with_front(alloc, room, bytes)?;
    put_different(volume, sector, room, &after, wanted)?;
    Ok(())
}

// How many blocks so many bytes take.
fn blocks_of(size: u32, bytes: usize) -> usize
    requires some { 0 < size }
    requires small { bytes + size < 2 ^ 64 }
    ensures { result ≡ blocks_for size bytes }
{
    (bytes + (size as usize - 1)) / size as usize
}

// Bytes i of those that stand in blocks of a size.
fn chunk(bytes: &[u8], size: u32, i: usize) -> &[u8]
    requires some { 0 < size }
    requires there { i < blocks_for size (length bytes.now) }
    ensures chunk { result.now ≡ take size (drop (i * size) bytes.now) }
    ensures short { length result.now ≤ size }
{
    let from = i * size as usize;
    let many = (bytes.len() - from).min(size as usize);
    &bytes[from..from + many]
}

// Puts bytes over the blocks of a partition from the one at an address on. `room` is lent and has the block size.
fn put_blocks<B: Bench, P: Parts>(
    alloc: Global,
    bench: &mut B,
    volume: &Volume,
    parts: &P,
    at: Addr,
    bytes: &[u8],
    wanted: &mut Wanted,
    room: &mut [u8],
) -> Result<(), WorkStop>
    requires over { IsPlannedOver volume.now (P.place parts.now) (B.files bench.old) }
    requires room { length room.old ≡ volume.now.size }
    requires few { length bytes.now < 2 ^ 32 }
    requires writable { AreWritable volume.now wanted.old }
    ensures put { B.tells → let v = listed volume.now (B.held bench.old) (P.place parts.now) in
        OnOk result (PutsOf v wanted.old wanted.new (spread_at v at.part at.block bytes.now)) }
    ensures writable { OnOk result (AreWritable volume.now wanted.new) }
    ensures room { length room.new ≡ length room.old }
    ensures reads { OnlyReads B.files B.held B.faults bench.old bench.new WorkStop.Fault result }
{
    let size = volume.size;
    let limit = parts.blocks(at.part);
    let blocks = blocks_of(size, bytes.len());
    for i in 0..blocks {
        if limit as u64 <= at.block as u64 + i as u64 {
            return Ok(());
        }
        let next = Addr {
            part: at.part,
            block: at.block + i as u32,
        };
        let front = chunk(bytes, size, i);
        put_front(alloc, bench, volume, parts, next, front, wanted, room)?;
    }
    Ok(())
}

/// Puts a content over the blocks of a list, as far as it goes. `room` is lent and has the block size.
pub(crate) fn put_content<B: Bench, P: Parts>(
    alloc: Global,
    bench: &mut B,
    volume: &Volume,
    parts: &P,
    list: &List,
    content: &[u8],
    wanted: &mut Wanted,
    room: &mut [u8],
) -> Result<(), WorkStop>
    requires over { IsPlannedOver volume.now (P.place parts.now) (B.files bench.old) }
    requires room { length room.old ≡ volume.now.size }
    requires writable { AreWritable volume.now wanted.old }
    ensures put { B.tells → let v = listed volume.now (B.held bench.old) (P.place parts.now) in
        OnOk result (PutsOf v wanted.old wanted.new (spread_over v list.now.runs content.now)) }
    ensures writable { OnOk result (AreWritable volume.now wanted.new) }
    ensures room { length room.new ≡ length room.old }
    ensures reads { OnlyReads B.files B.held B.faults bench.old bench.new WorkStop.Fault result }
{
    let mut left = content;
    for i in 0..list.len() {
        let run = list.run(i);
        let many = left.len().min(run.length as usize);
        let (front, rest) = left.split_at(many);
        put_blocks(alloc, bench, volume, parts, run.at, front, wanted, room)?;
        left = rest;
    }
    Ok(())
}
