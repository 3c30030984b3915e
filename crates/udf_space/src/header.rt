// What stands before the bits of a bitmap (ECMA-167 4/14.12).
ghost use Rattle.std.specs.Prelude.{◌≡◌, ◌+◌, ◌≤◌, length};
ghost use Rattle.udf_space.specs.Bits.{bytes_for};
ghost use Rattle.udf_space.specs.Area.{has_counts, headed, is_bitmap};

use crate::stored::stored_bytes;
use udf_field::{Fields, FieldsMut, whole_id};

// The tag identifier of a space bitmap (ECMA-167 4/7.2.1).
const SPACE_BITMAP: u16 = 264;

// Offsets of the fields.
const IDENTIFIER_AT: usize = 0;

const VERSION_AT: usize = 2;

const RESERVED_AT: usize = 5;

const SERIAL_AT: usize = 6;

const BIT_COUNT_AT: usize = 16;

const BYTE_COUNT_AT: usize = 20;

// Where the bits begin.
pub(crate) const BITS_AT: usize = 24;

// Whether the counts of an area are those of so many blocks.
#[tactic(auto, unfolding(crate::specs::Area::has_counts))]
fn has_counts(area: &[u8], blocks: u32) -> bool
    requires { 24 ≤ length area.now }
    ensures { result ≡ has_counts blocks area.now }
{
    let fields = Fields::over(area);
    fields.u32_at(BIT_COUNT_AT) == blocks
        && fields.u32_at(BYTE_COUNT_AT) as usize == stored_bytes(blocks)
}

// Whether an area begins with the header of a bitmap of so many blocks.
#[tactic(auto, unfolding(crate::specs::Area::is_bitmap))]
pub(crate) fn has_header(area: &[u8], blocks: u32) -> bool
    requires { 24 ≤ length area.now }
    ensures { result ≡ is_bitmap blocks area.now }
{
    match whole_id(area) {
        Some(SPACE_BITMAP) => has_counts(area, blocks),
        _ => false,
    }
}

// Writes the header of a bitmap of so many blocks, but for the tag's CRC, location and checksum.
#[tactic(auto, unfolding(crate::specs::Area::headed))]
pub(crate) fn put_header(into: &mut [u8], version: u16, serial: u16, blocks: u32)
    requires { 24 ≤ length into.old }
    ensures { into.new ≡ headed version serial blocks into.old }
{
    let mut fields = FieldsMut::over(into);
    fields.put_u16(IDENTIFIER_AT, SPACE_BITMAP);
    fields.put_u16(VERSION_AT, version);
    fields.put_u8(RESERVED_AT, 0);
    fields.put_u16(SERIAL_AT, serial);
    fields.put_u32(BIT_COUNT_AT, blocks);
    fields.put_u32(BYTE_COUNT_AT, stored_bytes(blocks) as u32);
}
