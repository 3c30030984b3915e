//! The mend of the rule on sparing tables (UDF 2.50 2.2.12): each table that does not agree with the prevailing one becomes it at its
//! own sector, and what stands behind its end there stays. It reads the blocks that each copy takes.
ghost use Rattle.std.specs.Prelude.{◌≡◌, ◌+◌, ◌-◌, ◌*◌, ◌≤◌, ◌++◌, length, drop, OnOk};
ghost use Rattle.std.specs.List.{All, flat_map};
ghost use Rattle.udf_outside.specs.Reads.{OnlyReads};
ghost use Rattle.udf_outside.specs.Sectors.{disk_of};
ghost use Rattle.udf_volume_model.specs.Anchor.{blocks_for};
ghost use Rattle.udf_volume_model.specs.SparingRule.{blocks_cut, copies_of, table_blocks, table_copy};
ghost use Rattle.udf_volume_model.specs.SparingTable.{table_end};
ghost use Rattle.udf_volume.specs.Areas.{sparing_seen};
ghost use Rattle.udf_volume.specs.Laid.{IsLaidOut};
ghost use Rattle.udf_volume.specs.Over.{IsOver};
ghost use Rattle.udf_wanted.specs.Wanted.{LookAlike};
ghost use Rattle.udf_wanted.specs.Writable.{AreFreeFrom, AreWritable};

use crate::{NoMemory, WorkStop};
use std::alloc::Global;
use udf_field::{relocate, retag};
use udf_layer::{coverable_bytes, covered_bytes};
use udf_outside::{Bench, Role};
use udf_volume::{Deviation, Volume, table_verdict};
use udf_wanted::Wanted;

// The blocks that some bytes take.
#[tactic(auto, unfolding(udf_volume_model::specs::Anchor::blocks_for))]
fn block_count(size: u32, bytes: usize) -> u32
    requires size { 512 ≤ size }
    requires few { bytes ≤ 65551 }
    ensures { result ≡ blocks_for size bytes }
{
    ((bytes + (size as usize - 1)) / size as usize) as u32
}

// Lays a table over the front of an area for a sector: its tag keeps its CRC length where that covers no more than the table, else it
// is made anew over the whole table, which says so many bytes behind its tag.
fn lay_copy(table: &[u8], behind: u16, sector: u32, area: &mut [u8])
    requires ends { length table.now ≡ table_end table.now }
    requires behind { behind ≡ length table.now - 16 }
    requires room { length table.now ≤ length area.old }
    ensures { area.new ≡ table_copy sector table.now ++ drop (length table.now) area.old }
{
    let front = &mut area[..table.len()];
    front.copy_from_slice(table);
    if covered_bytes(table) as usize <= table.len() {
        relocate(front, sector);
    } else {
        retag(front, behind, sector);
    }
}

// Puts so many blocks of an area from a sector on.
fn put_area(
    volume: &Volume,
    sector: u32,
    count: u32,
    area: &[u8],
    wanted: &mut Wanted,
) -> Result<(), NoMemory>
    requires free { AreFreeFrom volume.now sector count }
    requires whole { length area.now ≡ count * volume.now.size }
    requires few { volume.now.blocks ≤ 4294967295 }
    requires writable { AreWritable volume.now wanted.old }
    ensures put { OnOk result (LookAlike wanted.new (wanted.old ++ blocks_cut volume.now.size sector count area.now)) }
    ensures writable { OnOk result (AreWritable volume.now wanted.new) }
{
    let size = volume.size as usize;
    for i in 0..count {
        let start = i as usize * size;
        wanted.put(sector + i, &area[start..start + size])?;
    }
    Ok(())
}

// Puts the copy of a table at another sector, where it may be written.
fn put_table<B: Bench>(
    alloc: Global,
    bench: &mut B,
    volume: &Volume,
    table: &[u8],
    behind: u16,
    sector: u32,
    wanted: &mut Wanted,
) -> Result<(), WorkStop>
    requires over { IsOver volume.now (B.files bench.old) }
    requires ends { length table.now ≡ table_end table.now }
    requires behind { behind ≡ length table.now - 16 }
    requires free { AreFreeFrom volume.now sector (blocks_for volume.now.size (length table.now)) }
    requires writable { AreWritable volume.now wanted.old }
    ensures put { B.tells → OnOk result (LookAlike wanted.new
        (wanted.old ++ table_blocks volume.now.size (disk_of volume.now.size (B.held bench.old)) table.now sector)) }
    ensures writable { OnOk result (AreWritable volume.now wanted.new) }
    ensures reads { OnlyReads B.files B.held B.faults bench.old bench.new WorkStop.Fault result }
{
    let count = block_count(volume.size, table.len());
    let mut area = vec![in alloc; 0u8; count as usize * volume.size as usize]?;
    bench.read_at(Role::Image, sector as u64 * volume.size as u64, &mut area)?;
    lay_copy(table, behind, sector, &mut area);
    put_area(volume, sector, count, &area, wanted)?;
    Ok(())
}

// Puts the copies of a table in the place of others.
fn put_in_place<B: Bench>(
    alloc: Global,
    bench: &mut B,
    volume: &Volume,
    table: &[u8],
    behind: u16,
    others: &[Deviation],
    wanted: &mut Wanted,
) -> Result<(), WorkStop>
    requires over { IsOver volume.now (B.files bench.old) }
    requires ends { length table.now ≡ table_end table.now }
    requires behind { behind ≡ length table.now - 16 }
    requires free { All (λ other. AreFreeFrom volume.now other.at (blocks_for volume.now.size (length table.now))) others.now }
    requires writable { AreWritable volume.now wanted.old }
    ensures put { B.tells → OnOk result (LookAlike wanted.new (wanted.old
        ++ flat_map (λ other. table_blocks volume.now.size (disk_of volume.now.size (B.held bench.old)) table.now other.at) others.now)) }
    ensures writable { OnOk result (AreWritable volume.now wanted.new) }
    ensures reads { OnlyReads B.files B.held B.faults bench.old bench.new WorkStop.Fault result }
{
    for other in others {
        put_table(alloc, bench, volume, table, behind, other.at, wanted)?;
    }
    Ok(())
}

/// Puts what the rule on sparing tables wants.
pub(crate) fn put_tables<B: Bench>(
    alloc: Global,
    bench: &mut B,
    volume: &Volume,
    wanted: &mut Wanted,
) -> Result<(), WorkStop>
    requires over { IsOver volume.now (B.files bench.old) }
    requires laid { IsLaidOut volume.now }
    requires writable { AreWritable volume.now wanted.old }
    ensures put { B.tells → OnOk result (LookAlike wanted.new
        (wanted.old ++ copies_of volume.now.size (disk_of volume.now.size (B.held bench.old)) (sparing_seen volume.now))) }
    ensures writable { OnOk result (AreWritable volume.now wanted.new) }
    ensures reads { OnlyReads B.files B.held B.faults bench.old bench.new WorkStop.Fault result }
{
    let verdict = table_verdict(alloc, bench, volume)?;
    let Some(table) = &verdict.prevailing else {
        return Ok(());
    };
    let Some(behind) = coverable_bytes(table) else {
        return Ok(());
    };
    put_in_place(
        alloc,
        bench,
        volume,
        table,
        behind,
        &verdict.deviating,
        wanted,
    )
}
