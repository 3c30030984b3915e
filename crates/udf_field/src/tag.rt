// Descriptor tags (ECMA-167 3/7.2).
ghost use Rattle.std.specs.Prelude.{◌≡◌, ◌+◌, ◌*◌, ◌≤◌, ◌<◌, ◌^◌, IsTrue, Some, length, sum};
ghost use Rattle.udf_model.specs.Bytes.{with_number};
ghost use Rattle.udf_model.specs.Tag.{checksum_of, identifier, is_whole, relocated, retagged};
ghost use Rattle.udf_model.specs.Tag.{whole_id as id_of_whole, id_at as id_of_located};
ghost use Rattle.udf_field.specs.TagView.{tag_in};

use crate::remainder::crc;
use crate::{Fields, FieldsMut};

// Offsets of a tag's fields.
const IDENTIFIER_AT: usize = 0;

const VERSION_AT: usize = 2;

const CHECKSUM_AT: usize = 4;

const RESERVED_AT: usize = 5;

const SERIAL_AT: usize = 6;

const CRC_AT: usize = 8;

const CRC_LENGTH_AT: usize = 10;

const LOCATION_AT: usize = 12;

// The length of a tag.
const TAG_BYTES: usize = 16;

/// A descriptor's tag: its identifier, the version of the descriptor's structure, the serial number, the CRC, the
/// number of bytes after the tag that the CRC covers, and the location, which is that of the descriptor's first
/// byte: a sector, or a block of a partition (ECMA-167 3/7.2 and 4/7.2).
#[derive(Clone, Copy, Debug, PartialEq, Eq)]
pub struct Tag {
    pub id: u16,
    pub version: u16,
    pub serial: u16,
    pub crc: u16,
    pub crc_length: u16,
    pub location: u32,
}

// The sum of some bytes.
fn sum_of(bytes: &[u8]) -> u32
    requires { length bytes.now < 2 ^ 16 }
    ensures total { result ≡ sum bytes.now }
    ensures small { result ≤ 255 * length bytes.now }
{
    let mut total: u32 = 0;
    for byte in bytes {
        total += *byte as u32;
    }
    total
}

// The checksum of the tag that begins the area, which does not count its own byte.
#[tactic(auto, unfolding(udf_model::specs::Tag::checksum_of))]
fn checksum(area: &[u8]) -> u8
    requires { 16 ≤ length area.now }
    ensures { result ≡ checksum_of area.now }
{
    ((sum_of(&area[..CHECKSUM_AT]) + sum_of(&area[RESERVED_AT..TAG_BYTES])) % 256) as u8
}

// Whether a whole tag begins the area.
#[tactic(auto, using(crate::proofs::Whole::too_short, crate::proofs::Whole::wrong_sum, crate::proofs::Whole::last_test))]
fn begins_with_tag(area: &[u8]) -> bool
    requires { 16 ≤ length area.now }
    ensures { result ≡ is_whole area.now }
{
    let fields = Fields::over(area);
    let crc_length = fields.u16_at(CRC_LENGTH_AT) as usize;
    if area.len() < TAG_BYTES + crc_length {
        return false;
    }
    if fields.u8_at(CHECKSUM_AT) != checksum(area) {
        return false;
    }
    let (_, rest) = area.split_at(TAG_BYTES);
    let (covered, _) = rest.split_at(crc_length);
    crc(covered) == fields.u16_at(CRC_AT)
}

/// The tag that begins an area, where it is whole (ECMA-167 3/7.2): the area has room for the bytes that the CRC
/// covers, and checksum and CRC are right. An area of any length is looked at, and any version and location is read.
#[tactic(auto, using(crate::proofs::Whole::short_of_16), unfolding(crate::specs::TagView::tag_in))]
pub fn tag_of(area: &[u8]) -> Option<Tag>
    ensures { result ≡ tag_in area.now }
{
    if area.len() < TAG_BYTES {
        return None;
    }
    if !begins_with_tag(area) {
        return None;
    }
    let fields = Fields::over(area);
    Some(Tag {
        id: fields.u16_at(IDENTIFIER_AT),
        version: fields.u16_at(VERSION_AT),
        serial: fields.u16_at(SERIAL_AT),
        crc: fields.u16_at(CRC_AT),
        crc_length: fields.u16_at(CRC_LENGTH_AT),
        location: fields.u32_at(LOCATION_AT),
    })
}

/// The identifier of an area that a whole tag begins, wherever its location.
#[tactic(auto, unfolding(udf_model::specs::Tag::whole_id, crate::specs::TagView::tag_in))]
pub fn whole_id(area: &[u8]) -> Option<u16>
    ensures { result ≡ id_of_whole area.now }
{
    let tag = tag_of(area)?;
    Some(tag.id)
}

/// The identifier of an area that is whole at a location: its tag is whole and states that location.
#[tactic(auto, unfolding(udf_model::specs::Tag::id_at, crate::specs::TagView::tag_in))]
pub fn id_at(area: &[u8], at: u32) -> Option<u16>
    ensures { result ≡ id_of_located at area.now }
{
    let tag = tag_of(area)?;
    if tag.location == at {
        Some(tag.id)
    } else {
        None
    }
}

// Writes the location alone.
fn put_location(area: &mut [u8], location: u32)
    requires { 16 ≤ length area.old }
    ensures { area.new ≡ with_number 4 12 location area.old }
{
    let mut fields = FieldsMut::over(area);
    fields.put_u32(LOCATION_AT, location);
}

// Writes CRC length and CRC alone.
fn put_crc(area: &mut [u8], crc_length: u16, crc: u16)
    requires { 16 ≤ length area.old }
    ensures { area.new ≡ with_number 2 8 crc (with_number 2 10 crc_length area.old) }
{
    let mut fields = FieldsMut::over(area);
    fields.put_u16(CRC_LENGTH_AT, crc_length);
    fields.put_u16(CRC_AT, crc);
}

/// Sets the tag's location, and its checksum to match (ECMA-167 3/7.2.3 and 3/7.2.8). CRC length and CRC stay.
#[tactic(auto, using(crate::proofs::Anew::is_relocated, crate::proofs::Anew::found_there))]
pub fn relocate(area: &mut [u8], location: u32)
    requires { 16 ≤ length area.old }
    ensures value { area.new ≡ relocated location area.old }
    ensures whole { IsTrue (is_whole area.old) → id_of_located location area.new ≡ Some (identifier area.old) }
{
    put_location(area, location);
    area[CHECKSUM_AT] = checksum(area);
}

/// Makes the tag anew over the `crc_length` bytes after it, at a location: its CRC length, CRC, location and checksum
/// (ECMA-167 3/7.2). Identifier, version, reserved byte and serial number stay.
#[tactic(auto, using(crate::proofs::Anew::is_retagged, crate::proofs::Anew::found_anew))]
pub fn retag(area: &mut [u8], crc_length: u16, location: u32)
    requires { 16 + crc_length ≤ length area.old }
    ensures value { area.new ≡ retagged location crc_length area.old }
    ensures whole { id_of_located location area.new ≡ Some (identifier area.old) }
{
    let covered = crc(&area[TAG_BYTES..TAG_BYTES + crc_length as usize]);
    put_crc(area, crc_length, covered);
    relocate(area, location);
}
