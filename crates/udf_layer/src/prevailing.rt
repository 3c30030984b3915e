// The prevailing sparing table of a volume (UDF 2.50 2.2.12).
ghost use Rattle.std.specs.Prelude.{◌≡◌, ◌↔◌, ◌+◌, ◌*◌, ◌<◌, ◌≤◌, ℕ, List, IfOk, IfErr, IsErrOf, Option, Some, None, length};
ghost use Rattle.udf_outside.specs.Files.{IsAttached};
ghost use Rattle.udf_outside.specs.Reads.{OnlyReads};
ghost use Rattle.udf_outside.specs.Sectors.{disk_of};
ghost use Rattle.udf_outside.specs.Stops.{bytes_of, slice_of};
ghost use Rattle.udf_outside.specs.declared.bench.Role.TheVariants.{Image};
ghost use Rattle.udf_layer.specs.Fronts.{front_length, table_bytes, table_front};
ghost use Rattle.udf_layer.specs.Prevailing.{IsTableMap, Prevails};
ghost use Rattle.udf_layer.specs.Read.{IsBest, IsOfTable, IsRead, IsTableStop, IsUsedTable};
ghost use Rattle.udf_layer.specs.Tables.{area_bytes, map_seen};
ghost use Rattle.udf_volume_model.specs.SparingTable.{listed_area, listed_number, prevailing_table, table_area, table_number, table_stated};

use crate::entries::used_entries;
use crate::whole_table::{HEAD_BYTES, WholeTable, front_bytes, is_whole_table};
use crate::{LayerStop, Missing, SparingMap, SparingTable, WorkStop};
use std::alloc::Global;
use udf_outside::{Bench, Role};

// The bytes of the blocks that so many bytes take.
#[tactic(auto, unfolding(crate::specs::Tables::area_bytes))]
fn bytes_of_area(size: u32, bytes: u32) -> u64
    requires { 512 ≤ size }
    ensures { result ≡ area_bytes size bytes }
{
    let size = size as u64;
    (bytes as u64 + (size - 1)) / size * size
}

// How many bytes of the area from an offset on matter, by its first bytes.
fn needed_bytes<B: Bench>(bench: &mut B, start: u64) -> Result<u32, WorkStop>
    requires attached { IsAttached Image (B.files bench.old) }
    requires within { start + 56 ≤ (B.files bench.old).image.size }
    ensures needed { B.tells → IfOk result (λ n. n ≡ front_length (slice_of (bytes_of Image (B.held bench.old)) start 56)) }
    ensures some { IfOk result (λ n. 56 ≤ n) }
    ensures reads { OnlyReads B.files B.held B.faults bench.old bench.new WorkStop.Fault result }
{
    let mut head = [0u8; HEAD_BYTES as usize];
    bench.read_at(Role::Image, start, &mut head)?;
    Ok(front_bytes(&head))
}

// So many bytes from an offset on.
fn read_bytes<B: Bench>(
    alloc: Global,
    bench: &mut B,
    start: u64,
    many: usize,
) -> Result<Vec<u8>, WorkStop>
    requires attached { IsAttached Image (B.files bench.old) }
    requires within { start + many ≤ (B.files bench.old).image.size }
    ensures bytes { B.tells → IfOk result (λ v. v.items ≡ slice_of (bytes_of Image (B.held bench.old)) start many) }
    ensures len { IfOk result (λ v. length v.items ≡ many) }
    ensures reads { OnlyReads B.files B.held B.faults bench.old bench.new WorkStop.Fault result }
{
    let mut bytes = vec![in alloc; 0; many]?;
    bench.read_at(Role::Image, start, &mut bytes)?;
    Ok(bytes)
}

// The front of the area of a table at a sector, on which all that the table says rests.
#[tactic(auto, using(crate::proofs::AreaFronts::area_large, crate::proofs::AreaFronts::is_front))]
fn read_front<B: Bench>(
    alloc: Global,
    bench: &mut B,
    size: u32,
    bytes: u32,
    at: u32,
) -> Result<Vec<u8>, WorkStop>
    requires attached { IsAttached Image (B.files bench.old) }
    requires large { 512 ≤ size }
    requires some { 56 ≤ bytes }
    requires within { at * size + area_bytes size bytes ≤ (B.files bench.old).image.size }
    ensures front { B.tells → IfOk result (λ front. front.items ≡ table_front (table_area size (disk_of size (B.held bench.old)) bytes at)) }
    ensures long { IfOk result (λ front. 56 ≤ length front.items) }
    ensures reads { OnlyReads B.files B.held B.faults bench.old bench.new WorkStop.Fault result }
{
    let start = at as u64 * size as u64;
    let needed = needed_bytes(bench, start)?;
    let many = bytes_of_area(size, bytes).min(needed as u64);
    read_bytes(alloc, bench, start, many as usize)
}

// The table of a front that was read at a sector, where it is whole.
fn table_of(bytes: u32, at: u32, front: Vec<u8>) -> Option<WholeTable>
    requires { 56 ≤ length front.items }
    ensures read { (area : List ℕ) → front.items ≡ table_front area → bytes ≤ length area → IsRead (table_number bytes at area) (table_bytes area) result }
    ensures of { IsOfTable bytes result }
{
    if is_whole_table(bytes, at, &front) {
        Some(WholeTable::of(front))
    } else {
        None
    }
}

/// The table at a sector, where one is whole there.
pub(crate) fn read_table<B: Bench>(
    alloc: Global,
    bench: &mut B,
    size: u32,
    bytes: u32,
    at: u32,
) -> Result<Option<WholeTable>, WorkStop>
    requires attached { IsAttached Image (B.files bench.old) }
    requires large { 512 ≤ size }
    requires some { 56 ≤ bytes }
    requires within { at * size + area_bytes size bytes ≤ (B.files bench.old).image.size }
    ensures table { B.tells → IfOk result (IsRead (table_number bytes at (table_area size (disk_of size (B.held bench.old)) bytes at)) (table_bytes (table_area size (disk_of size (B.held bench.old)) bytes at))) }
    ensures of { IfOk result (IsOfTable bytes) }
    ensures reads { OnlyReads B.files B.held B.faults bench.old bench.new WorkStop.Fault result }
{
    let front = read_front(alloc, bench, size, bytes, at)?;
    Ok(table_of(bytes, at, front))
}

// The better of the best table before and the next one.
fn higher(best: Option<WholeTable>, found: Option<WholeTable>) -> Option<WholeTable>
    ensures best { (numbers : ℕ → Option ℕ) (texts : ℕ → List ℕ) (i : ℕ) → IsBest numbers texts i best → IsRead (numbers i) (texts i) found
        → IsBest numbers texts (i + 1) result }
    ensures of { (bytes : ℕ) → IsOfTable bytes best → IsOfTable bytes found → IsOfTable bytes result }
{
    let Some(found) = found else {
        return best;
    };
    let Some(best) = best else {
        return Some(found);
    };
    if best.number < found.number {
        Some(found)
    } else {
        Some(best)
    }
}

/// The best of the tables that a map lists.
pub(crate) fn best_table<B: Bench>(
    alloc: Global,
    bench: &mut B,
    size: u32,
    map: &SparingMap,
) -> Result<Option<WholeTable>, WorkStop>
    requires attached { IsAttached Image (B.files bench.old) }
    requires large { 512 ≤ size }
    requires map { IsTableMap size (B.files bench.old).image.size map.now }
    ensures best { B.tells → IfOk result (IsBest (listed_number size (disk_of size (B.held bench.old)) (map_seen map.now))
        (λ i. table_bytes (listed_area size (disk_of size (B.held bench.old)) (map_seen map.now) i)) map.now.count) }
    ensures of { IfOk result (IsOfTable map.now.bytes) }
    ensures reads { OnlyReads B.files B.held B.faults bench.old bench.new WorkStop.Fault result }
{
    let mut best = None;
    for i in 0..map.count as usize {
        let found = read_table(alloc, bench, size, map.bytes, map.at[i])?;
        best = higher(best, found);
    }
    Ok(best)
}

/// The prevailing sparing table of those that a map lists, as it is used in a partition of so many blocks: of the whole ones the
/// one with the highest sequence number, the earliest listed of equals. An original is used where it is the first block of a
/// packet of the partition and no earlier entry has it. `size` is the block size in bytes. `Missing(SparingTable)` where no
/// table is whole. Only the bytes of a table that count are held in memory, at most some 525,000.
pub fn sparing_table<B: Bench>(
    alloc: Global,
    bench: &mut B,
    size: u32,
    map: &SparingMap,
    blocks: u32,
) -> Result<SparingTable, LayerStop>
    requires attached { IsAttached Image (B.files bench.old) }
    requires large { 512 ≤ size }
    requires map { IsTableMap size (B.files bench.old).image.size map.now }
    ensures table { B.tells → IfOk result (λ table. Some table ≡ table_stated size (disk_of size (B.held bench.old)) (map_seen map.now) blocks) }
    ensures missing { B.tells → IsErrOf result (LayerStop.Missing Missing.SparingTable)
        → table_stated size (disk_of size (B.held bench.old)) (map_seen map.now) blocks ≡ None }
    ensures used { IfOk result (IsUsedTable map.now blocks) }
    ensures stops { IfErr result IsTableStop }
    ensures reads { OnlyReads B.files B.held B.faults bench.old bench.new LayerStop.Fault result }
{
    let Some(table) = best_table(alloc, bench, size, map)? else {
        return Err(LayerStop::Missing(Missing::SparingTable));
    };
    let used = used_entries(alloc, map.packet as u32, blocks, &table.bytes)?;
    Ok(used)
}

/// A table is found exactly where it prevails, and none exactly where none is whole.
pub fn prevailing_law()
    ensures found { (numbers : ℕ → Option ℕ) (count best : ℕ) → (prevailing_table numbers count ≡ Some best) ↔ Prevails numbers count best }
    ensures none { (numbers : ℕ → Option ℕ) (count : ℕ) → (prevailing_table numbers count ≡ None) ↔ ((k : ℕ) → k < count → numbers k ≡ None) }
{}
