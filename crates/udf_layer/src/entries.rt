// The entries of a sparing table that are used (UDF 2.50 2.2.12).
ghost use Rattle.std.specs.Prelude.{◌≡◌, ◌+◌, ◌*◌, ◌++◌, ◌∷◌, [], ◌<◌, ◌≤◌, ◌^◌, ℕ, List, IfOk, length};
ghost use Rattle.udf_volume_model.specs.SparingTable.{entries, entry_at, entry_count, is_original, used_pairs};

use crate::SparingTable;
use crate::whole_table::{COUNT_AT, ENTRY_BYTES, HEAD_BYTES};
use std::alloc::{AllocError, Global};
use udf_field::Fields;

/// The offset of the mapped location in an entry.
const MAPPED_AT: usize = 4;

// Original and mapped location of an entry.
#[tactic(auto, unfolding(udf_volume_model::specs::SparingTable::entry_at))]
fn entry(table: &[u8], i: u16) -> (u32, u32)
    requires { 64 + 8 * i ≤ length table.now }
    ensures { result ≡ entry_at table.now i }
{
    let fields = Fields::over(table);
    let at = (HEAD_BYTES + ENTRY_BYTES * i as u32) as usize;
    (fields.u32_at(at), fields.u32_at(at + MAPPED_AT))
}

// Whether an original is the first block of a packet of a partition of so many blocks.
#[tactic(auto, unfolding(udf_volume_model::specs::SparingTable::is_original))]
fn is_packet(packet: u32, blocks: u32, original: u32) -> bool
    requires { 0 < packet }
    ensures { result ≡ is_original packet blocks original }
{
    original % packet == 0 && original < blocks
}

// A table of used entries, with one more where it is used.
fn with_entry(
    table: SparingTable,
    blocks: u32,
    pair: (u32, u32),
) -> Result<SparingTable, AllocError>
    requires few { length table.pairs + 1 < 2 ^ 32 }
    ensures packet { IfOk result (λ t. t.packet ≡ table.packet) }
    ensures pairs { (list : List (ℕ × ℕ)) → table.pairs ≡ used_pairs table.packet blocks list
        → IfOk result (λ t. t.pairs ≡ used_pairs table.packet blocks (list ++ pair ∷ [])) }
{
    let packet = table.packet();
    if !is_packet(packet, blocks, pair.0) {
        return Ok(table);
    }
    if table.maps(pair.0) {
        return Ok(table);
    }
    table.with(pair.0, pair.1)
}

/// The entries of a table that are used in a partition of so many blocks.
pub(crate) fn used_entries(
    alloc: Global,
    packet: u32,
    blocks: u32,
    table: &[u8],
) -> Result<SparingTable, AllocError>
    requires some { 0 < packet }
    requires entries { 56 + 8 * entry_count table.now ≤ length table.now }
    ensures packet { IfOk result (λ t. t.packet ≡ packet) }
    ensures pairs { IfOk result (λ t. t.pairs ≡ used_pairs packet blocks (entries table.now)) }
{
    let mut used = SparingTable::new(alloc, packet);
    for i in 0..Fields::over(table).u16_at(COUNT_AT) {
        used = with_entry(used, blocks, entry(table, i))?;
    }
    Ok(used)
}
