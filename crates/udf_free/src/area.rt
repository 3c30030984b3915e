// The bytes of an extent of the base partition.
ghost use Rattle.std.specs.Prelude.{◌≡◌, ◌+◌, ◌*◌, ◌/◌, ◌<◌, ◌≤◌, ◌++◌, ◌^◌, ℕ, true, is_some, IfOk, OnOk, Some, length, vec_len};
ghost use Rattle.udf_field.specs.declared.address.Addr.{Addr};
ghost use Rattle.udf_outside.specs.Files.{IsAttached};
ghost use Rattle.udf_outside.specs.Stops.{bytes_of};
ghost use Rattle.udf_outside.specs.Reads.{OnlyReads};
ghost use Rattle.udf_outside.specs.declared.bench.Role.TheVariants.{Image};
ghost use Rattle.udf_file_model.specs.Content.{block_at};
ghost use Rattle.udf_file_model.specs.Front.{blocks_for};
ghost use Rattle.udf_file_model.specs.Listing.{volume_of};
ghost use Rattle.udf_rules_model.specs.Bitmap.{area_of};
ghost use Rattle.udf_free.specs.Free.{StandsWhole};

use crate::taken::BASE;
use std::alloc::Global;
use udf_field::{Addr, Short};
use udf_layer::{Parts, WorkStop};
use udf_outside::{Bench, read_block};

// The blocks that so many bytes take.
fn blocks_of(size: u32, bytes: u32) -> u32
    requires { 0 < size }
    ensures { result ≡ blocks_for size bytes }
{
    ((bytes as u64 + (size - 1) as u64) / size as u64) as u32
}

// Appends the block at an address that is placed. `room` is lent and has the block size.
fn append_block<B: Bench, P: Parts>(
    bench: &mut B,
    parts: &P,
    size: u32,
    at: Addr,
    room: &mut [u8],
    area: &mut Vec<u8>,
) -> Result<(), WorkStop>
    requires attached { IsAttached Image (B.files bench.old) }
    requires inside { (a : Addr) (s : ℕ) → P.place parts.now a ≡ Some s → s < (B.files bench.old).image.size / size }
    requires placed { is_some (P.place parts.now at) ≡ true }
    requires room { length room.old ≡ size }
    ensures bytes { B.tells → OnOk result (area.new.items ≡ area.old.items
        ++ block_at (volume_of size (bytes_of Image (B.held bench.old)) (P.place parts.now)) at) }
    ensures long { OnOk result (vec_len area.new ≡ vec_len area.old + size) }
    ensures reads { OnlyReads B.files B.held B.faults bench.old bench.new WorkStop.Fault result }
{
    let Some(sector) = parts.locate(at) else {
        return Ok(());
    };
    read_block(bench, size, sector, room)?;
    area.extend_from_slice(room)?;
    Ok(())
}

/// The bytes of an extent in the base partition, of so many blocks. Each block of it is read once.
pub fn read_area<B: Bench, P: Parts>(
    alloc: Global,
    bench: &mut B,
    parts: &P,
    size: u32,
    blocks: u32,
    extent: Short,
) -> Result<Vec<u8>, WorkStop>
    requires attached { IsAttached Image (B.files bench.old) }
    requires some { 0 < size }
    requires inside { (a : Addr) (s : ℕ) → P.place parts.now a ≡ Some s → s < (B.files bench.old).image.size / size }
    requires placed { StandsWhole (P.place parts.now) blocks }
    requires within { extent.block + blocks_for size extent.length ≤ blocks }
    ensures bytes { B.tells → IfOk result (λ area. area.items ≡ area_of (volume_of size (bytes_of Image (B.held bench.old)) (P.place parts.now)) extent) }
    ensures long { IfOk result (λ area. vec_len area ≡ extent.length) }
    ensures reads { OnlyReads B.files B.held B.faults bench.old bench.new WorkStop.Fault result }
{
    let mut room = vec![in alloc; 0u8; size as usize]?;
    let mut area = Vec::new(alloc);
    for i in 0..blocks_of(size, extent.length) {
        let at = Addr {
            part: BASE,
            block: extent.block + i,
        };
        append_block(bench, parts, size, at, &mut room, &mut area)?;
    }
    area.truncate(extent.length as usize);
    Ok(area)
}
