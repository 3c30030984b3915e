// Fields that are written: each write changes the bytes of its field, and no other.
ghost use Rattle.std.specs.Prelude.{◌≡◌, ◌+◌, ◌≤◌, ◌<◌, ◌^◌, length};
ghost use Rattle.udf_model.specs.Bytes.{with_number, written_at};
ghost use Rattle.udf_field.specs.FieldView.{long_at, long_bytes, short_at, short_bytes, span_at, span_bytes};
ghost use Rattle.udf_field.specs.Lent.{lent};

use crate::address::stored_length;
use crate::{Long, Short, Span};
use byteorder::{ByteOrder, LittleEndian};

/// The fields of some bytes that are lent for writing. A clause sees the reference by `lent`; each write keeps it, so
/// that the lender, once this value is gone, has the bytes as the last write left them. An offset counts bytes from
/// their start.
#[derive(Drop)]
pub struct FieldsMut<'a> {
    bytes: &'a mut [u8],
}

impl<'a> FieldsMut<'a> {
    /// The fields of these bytes.
    pub fn over(bytes: &'a mut [u8]) -> FieldsMut<'a>
        ensures same_reference { (lent result).ghost_name ≡ bytes.entry.ghost_name }
        ensures same_bytes { (lent result).now ≡ bytes.old }
    {
        FieldsMut { bytes }
    }

    /// Writes a byte at an offset.
    #[tactic(auto, using(crate::proofs::Puts::put_byte))]
    pub fn put_u8(&mut self, at: usize, value: u8)
        requires { at + 1 ≤ length (lent self.old).now }
        ensures same_reference { (lent self.new).ghost_name ≡ (lent self.old).ghost_name }
        ensures same_length { length (lent self.new).now ≡ length (lent self.old).now }
        ensures written { (lent self.new).now ≡ with_number 1 at value (lent self.old).now }
    {
        let bytes = &mut *self.bytes;
        bytes[at] = value;
    }

    /// Writes a number of two bytes at an offset.
    #[tactic(auto, using(crate::proofs::Puts::put_number))]
    pub fn put_u16(&mut self, at: usize, value: u16)
        requires { at + 2 ≤ length (lent self.old).now }
        ensures same_reference { (lent self.new).ghost_name ≡ (lent self.old).ghost_name }
        ensures same_length { length (lent self.new).now ≡ length (lent self.old).now }
        ensures written { (lent self.new).now ≡ with_number 2 at value (lent self.old).now }
    {
        let bytes = &mut *self.bytes;
        LittleEndian::write_u16(&mut bytes[at..], value);
    }

    /// Writes a number of four bytes at an offset.
    #[tactic(auto, using(crate::proofs::Puts::put_number))]
    pub fn put_u32(&mut self, at: usize, value: u32)
        requires { at + 4 ≤ length (lent self.old).now }
        ensures same_reference { (lent self.new).ghost_name ≡ (lent self.old).ghost_name }
        ensures same_length { length (lent self.new).now ≡ length (lent self.old).now }
        ensures written { (lent self.new).now ≡ with_number 4 at value (lent self.old).now }
    {
        let bytes = &mut *self.bytes;
        LittleEndian::write_u32(&mut bytes[at..], value);
    }

    /// Writes a number of eight bytes at an offset.
    #[tactic(auto, using(crate::proofs::Puts::put_number))]
    pub fn put_u64(&mut self, at: usize, value: u64)
        requires { at + 8 ≤ length (lent self.old).now }
        ensures same_reference { (lent self.new).ghost_name ≡ (lent self.old).ghost_name }
        ensures same_length { length (lent self.new).now ≡ length (lent self.old).now }
        ensures written { (lent self.new).now ≡ with_number 8 at value (lent self.old).now }
    {
        let bytes = &mut *self.bytes;
        LittleEndian::write_u64(&mut bytes[at..], value);
    }

    /// Writes an extent of 8 bytes at an offset (ECMA-167 3/7.1).
    #[tactic(auto, using(crate::proofs::Puts::span_written, crate::proofs::Puts::span_back))]
    pub fn put_span(&mut self, at: usize, value: Span)
        requires { at + 8 ≤ length (lent self.old).now }
        ensures same_reference { (lent self.new).ghost_name ≡ (lent self.old).ghost_name }
        ensures same_length { length (lent self.new).now ≡ length (lent self.old).now }
        ensures written { (lent self.new).now ≡ written_at at (span_bytes value) (lent self.old).now }
        ensures back { span_at (lent self.new).now at ≡ value }
    {
        self.put_u32(at, value.length);
        self.put_u32(at + 4, value.start);
    }

    /// Writes a short allocation descriptor of 8 bytes at an offset (ECMA-167 4/14.14.1).
    #[tactic(auto, using(crate::proofs::Puts::short_written, crate::proofs::Puts::short_back))]
    pub fn put_short(&mut self, at: usize, value: Short)
        requires room { at + 8 ≤ length (lent self.old).now }
        requires kind { value.kind ≤ 3 }
        requires fits { value.length < 2 ^ 30 }
        ensures same_reference { (lent self.new).ghost_name ≡ (lent self.old).ghost_name }
        ensures same_length { length (lent self.new).now ≡ length (lent self.old).now }
        ensures written { (lent self.new).now ≡ written_at at (short_bytes value) (lent self.old).now }
        ensures back { short_at (lent self.new).now at ≡ value }
    {
        self.put_u32(at, stored_length(value.kind, value.length));
        self.put_u32(at + 4, value.block);
    }

    /// Writes a long allocation descriptor at an offset: the first 10 of its 16 bytes (ECMA-167 4/14.14.2). The six
    /// bytes of its implementation use stay.
    #[tactic(auto, using(crate::proofs::Puts::long_written, crate::proofs::Puts::long_back))]
    pub fn put_long(&mut self, at: usize, value: Long)
        requires room { at + 16 ≤ length (lent self.old).now }
        requires kind { value.kind ≤ 3 }
        requires fits { value.length < 2 ^ 30 }
        ensures same_reference { (lent self.new).ghost_name ≡ (lent self.old).ghost_name }
        ensures same_length { length (lent self.new).now ≡ length (lent self.old).now }
        ensures written { (lent self.new).now ≡ written_at at (long_bytes value) (lent self.old).now }
        ensures back { long_at (lent self.new).now at ≡ value }
    {
        self.put_u32(at, stored_length(value.kind, value.length));
        self.put_u32(at + 4, value.at.block);
        self.put_u16(at + 8, value.at.part);
    }
}
