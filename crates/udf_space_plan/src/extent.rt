// Bytes that are put over the blocks of an extent in the base partition.
ghost use Rattle.std.specs.Prelude.{◌≡◌, ◌+◌, ◌*◌, ◌^◌, ◌≤◌, ◌<◌, ◌∷◌, [], ℕ, OnOk, Some, drop, length, take, true};
ghost use Rattle.udf_field.specs.declared.address.Addr.{Addr};
ghost use Rattle.udf_file_mends.specs.Spread.{spread_from};
ghost use Rattle.udf_file_model.specs.Content.{block_at};
ghost use Rattle.udf_file_model.specs.Front.{blocks_for};
ghost use Rattle.udf_model.specs.Bytes.{written_at};
ghost use Rattle.udf_outside.specs.Files.{IsAttached};
ghost use Rattle.udf_outside.specs.Reads.{OnlyReads, failed};
ghost use Rattle.udf_outside.specs.Sectors.{disk_of};
ghost use Rattle.udf_outside.specs.declared.bench.Role.TheVariants.{Image};
ghost use Rattle.udf_space_plan.specs.Extent.{PutsAll, placed_blocks};
ghost use Rattle.udf_volume.specs.Over.{IsOver};
ghost use Rattle.udf_wanted.specs.Writable.{AreWritable, is_free};

use crate::WorkStop;
use udf_field::{Addr, Short};
use udf_layer::Parts;
use udf_outside::{Bench, Failed, read_block};
use udf_volume::Volume;
use udf_wanted::Wanted;

/// The reference of the base partition, which is a volume's first.
const BASE: u16 = 0;

// The blocks that so many bytes take.
fn blocks_of(size: u32, bytes: u32) -> u32
    requires { 0 < size }
    ensures { result ≡ blocks_for size bytes }
{
    ((bytes as u64 + (size - 1) as u64) / size as u64) as u32
}

// Of bytes that stand in blocks of a size those of block i.
fn chunk(bytes: &[u8], size: u32, i: u32) -> &[u8]
    requires some { 0 < size }
    requires there { i < blocks_for size (length bytes.now) }
    ensures chunk { result.now ≡ take size (drop (i * size) bytes.now) }
    ensures short { length result.now ≤ size }
{
    let from = i as usize * size as usize;
    let many = (bytes.len() - from).min(size as usize);
    &bytes[from..from + many]
}

// Makes the block of a sector with bytes over its front. The sector is read only where they leave some of it.
fn fill_block<B: Bench>(
    bench: &mut B,
    size: u32,
    sector: u32,
    bytes: &[u8],
    block: &mut [u8],
) -> Result<(), Failed>
    requires attached { IsAttached Image (B.files bench.old) }
    requires within { (sector + 1) * size ≤ (B.files bench.old).image.size }
    requires room { length block.old ≡ size }
    requires fits { length bytes.now ≤ size }
    ensures made { B.tells → OnOk result (block.new ≡ written_at 0 bytes.now (disk_of size (B.held bench.old) sector)) }
    ensures room { length block.new ≡ size }
    ensures reads { OnlyReads B.files B.held B.faults bench.old bench.new failed result }
{
    if bytes.len() == block.len() {
        block.copy_from_slice(bytes);
        return Ok(());
    }
    read_block(bench, size, sector, block)?;
    block[..bytes.len()].copy_from_slice(bytes);
    Ok(())
}

// Puts the block at an address with bytes over its front. `block` is lent and has the block size.
fn put_front<B: Bench, P: Parts>(
    bench: &mut B,
    volume: &Volume,
    parts: &P,
    at: Addr,
    bytes: &[u8],
    wanted: &mut Wanted,
    block: &mut [u8],
) -> Result<(), WorkStop>
    requires over { IsOver volume.now (B.files bench.old) }
    requires free { (a : Addr) (s : ℕ) → P.place parts.now a ≡ Some s → is_free volume.now s ≡ true }
    requires fits { length bytes.now ≤ volume.now.size }
    requires writable { AreWritable volume.now wanted.old }
    requires room { length block.old ≡ volume.now.size }
    ensures put { B.tells → let v = placed_blocks volume.now (B.held bench.old) (P.place parts.now) in
        OnOk result (PutsAll v wanted.old wanted.new ((at, written_at 0 bytes.now (block_at v at)) ∷ [])) }
    ensures writable { OnOk result (AreWritable volume.now wanted.new) }
    ensures room { length block.new ≡ volume.now.size }
    ensures reads { OnlyReads B.files B.held B.faults bench.old bench.new WorkStop.Fault result }
{
    let Some(sector) = parts.locate(at) else {
        return Ok(());
    };
    fill_block(bench, volume.size, sector, bytes, block)?;
    wanted.put(sector, block)?;
    Ok(())
}

/// Puts the bytes of an extent over its blocks; what follows them in the last block stays. `block` is lent and has the block size.
pub(crate) fn put_extent<B: Bench, P: Parts>(
    bench: &mut B,
    volume: &Volume,
    parts: &P,
    extent: Short,
    bytes: &[u8],
    wanted: &mut Wanted,
    block: &mut [u8],
) -> Result<(), WorkStop>
    requires over { IsOver volume.now (B.files bench.old) }
    requires free { (a : Addr) (s : ℕ) → P.place parts.now a ≡ Some s → is_free volume.now s ≡ true }
    requires long { length bytes.now ≡ extent.length }
    requires within { extent.block + blocks_for volume.now.size extent.length < 2 ^ 32 }
    requires writable { AreWritable volume.now wanted.old }
    requires room { length block.old ≡ volume.now.size }
    ensures put { B.tells → let v = placed_blocks volume.now (B.held bench.old) (P.place parts.now) in
        OnOk result (PutsAll v wanted.old wanted.new (spread_from v 0 extent.block (blocks_for v.size extent.length) bytes.now)) }
    ensures writable { OnOk result (AreWritable volume.now wanted.new) }
    ensures reads { OnlyReads B.files B.held B.faults bench.old bench.new WorkStop.Fault result }
{
    let size = volume.size;
    for i in 0..blocks_of(size, extent.length) {
        let at = Addr {
            part: BASE,
            block: extent.block + i,
        };
        put_front(
            bench,
            volume,
            parts,
            at,
            chunk(bytes, size, i),
            wanted,
            block,
        )?;
    }
    Ok(())
}
