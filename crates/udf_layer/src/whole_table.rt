// Whole sparing tables (UDF 2.50 2.2.12).
ghost use Rattle.std.specs.Prelude.{◌≡◌, ◌+◌, ◌*◌, ◌≤◌, ◌&&◌, nat_le, max, length};
ghost use Rattle.udf_model.specs.Tag.{crc_length};
ghost use Rattle.udf_layer.specs.Fronts.{front_length, table_bytes};
ghost use Rattle.udf_volume_model.specs.SparingTable.{entry_count, is_table, sequence_number};

use udf_field::{Fields, id_at};

/// The identifier of a sparing table's tag.
const TABLE_ID: u16 = 0;

const NAME: &[u8; 18] = b"*UDF Sparing Table";

// Offsets of a table's fields.
const CRC_LENGTH_AT: usize = 10;

const ENTITY_AT: usize = 16;

/// The offset of the number of entries.
pub(crate) const COUNT_AT: usize = 48;

const SEQUENCE_AT: usize = 52;

/// The bytes of a tag.
pub(crate) const TAG_BYTES: u32 = 16;

/// The bytes of a table before its entries.
pub(crate) const HEAD_BYTES: u32 = 56;

/// The bytes of an entry.
pub(crate) const ENTRY_BYTES: u32 = 8;

/// The sequence number of a table.
pub(crate) fn sequence_of(table: &[u8]) -> u32
    requires { 56 ≤ length table.now }
    ensures { result ≡ sequence_number table.now }
{
    Fields::over(table).u32_at(SEQUENCE_AT)
}

/// A table that was read and is whole: its sequence number, and its bytes up to the end of its entries.
#[derive(Debug, Drop)]
pub(crate) struct WholeTable {
    pub number: u32,
    pub bytes: Vec<u8>,
    ghost ends: { length bytes.items ≡ 56 + 8 * entry_count bytes.items },
}

impl WholeTable {
    /// The table of a front, which has its entries.
    #[tactic(auto, using(crate::proofs::TableBytes::bytes_end))]
    pub(crate) fn of(front: Vec<u8>) -> WholeTable
        requires some { 56 ≤ length front.items }
        requires fits { 56 + 8 * entry_count front.items ≤ length front.items }
        ensures number { result.number ≡ sequence_number front.items }
        ensures bytes { result.bytes.items ≡ table_bytes front.items }
    {
        let mut bytes = front;
        let number = sequence_of(&bytes);
        let end = entries_end(&bytes);
        bytes.truncate(end as usize);
        WholeTable { number, bytes }
    }
}

// The end of the entries.
fn entries_end(table: &[u8]) -> u32
    requires { 50 ≤ length table.now }
    ensures { result ≡ 56 + 8 * entry_count table.now }
{
    HEAD_BYTES + ENTRY_BYTES * Fields::over(table).u16_at(COUNT_AT) as u32
}

/// How many bytes of a table its tag covers, itself and those of its CRC (ECMA-167 3/7.2.7), by its first bytes.
pub fn covered_bytes(head: &[u8]) -> u32
    requires { 50 ≤ length head.now }
    ensures { result ≡ 16 + crc_length head.now }
{
    TAG_BYTES + Fields::over(head).u16_at(CRC_LENGTH_AT) as u32
}

/// How many bytes of a table's area all that it says rests on, by its first bytes.
#[tactic(auto, unfolding(crate::specs::Fronts::front_length))]
pub(crate) fn front_bytes(head: &[u8]) -> u32
    requires { 50 ≤ length head.now }
    ensures value { result ≡ front_length head.now }
    ensures some { 56 ≤ result }
{
    covered_bytes(head).max(entries_end(head))
}

/// Whether a whole table of so many bytes begins at the sector `at`, by the front of its area, which has its entries.
#[tactic(auto, unfolding(udf_volume_model::specs::SparingTable::is_table))]
pub(crate) fn is_whole_table(bytes: u32, at: u32, front: &[u8]) -> bool
    requires { 56 ≤ length front.now }
    ensures { result ≡ (is_table bytes at front.now && nat_le (56 + 8 * entry_count front.now) (length front.now)) }
{
    if id_at(front, at) != Some(TABLE_ID) {
        return false;
    }
    if !Fields::over(front).entity_is(ENTITY_AT, NAME) {
        return false;
    }
    let end = entries_end(front);
    end <= bytes && end as usize <= front.len()
}
