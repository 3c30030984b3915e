// The fields of some bytes: numbers at offsets, the lowest byte first, and what is made of them.
ghost use Rattle.std.specs.Prelude.{◌≡◌, ◌+◌, ◌≤◌, ◌↔◌, IsTrue, length, slice_index};
ghost use Rattle.udf_model.specs.Bytes.{number_at};
ghost use Rattle.udf_field.specs.FieldView.{entity_is, entity_name, long_at, padded, short_at, span_at};

use crate::address::{kind_of, length_of};
use crate::entity::is_padded;
use crate::{Addr, Long, Short, Span};
use byteorder::{ByteOrder, LittleEndian};
use std::marker::Model;

/// The fields of some bytes, seen as the list of the bytes. An offset counts bytes from their start.
#[derive(Drop)]
pub struct Fields<'a> {
    bytes: &'a [u8],
}

impl<'a> Model for Fields<'a> {
    ghost use Rattle.std.specs.Prelude.{ℕ, List};

    ghost Value = { List ℕ };

    ghost view = { λ fields. fields.bytes.now };
}

#[tactic(auto, unfolding(udf_model::specs::Bytes::number_at))]
impl<'a> Fields<'a> {
    /// The fields of these bytes.
    pub fn over(bytes: &'a [u8]) -> Fields<'a>
        ensures { result ≡ bytes.now }
    {
        Fields { bytes }
    }

    /// The byte at an offset.
    pub fn u8_at(&self, at: usize) -> u8
        requires { at + 1 ≤ length self.now }
        ensures { result ≡ slice_index self.now at }
    {
        self.bytes[at]
    }

    /// The number of two bytes at an offset.
    pub fn u16_at(&self, at: usize) -> u16
        requires { at + 2 ≤ length self.now }
        ensures { result ≡ number_at 2 self.now at }
    {
        LittleEndian::read_u16(&self.bytes[at..])
    }

    /// The number of four bytes at an offset.
    pub fn u32_at(&self, at: usize) -> u32
        requires { at + 4 ≤ length self.now }
        ensures { result ≡ number_at 4 self.now at }
    {
        LittleEndian::read_u32(&self.bytes[at..])
    }

    /// The number of eight bytes at an offset.
    pub fn u64_at(&self, at: usize) -> u64
        requires { at + 8 ≤ length self.now }
        ensures { result ≡ number_at 8 self.now at }
    {
        LittleEndian::read_u64(&self.bytes[at..])
    }

    /// The extent of 8 bytes at an offset (ECMA-167 3/7.1).
    pub fn span_at(&self, at: usize) -> Span
        requires { at + 8 ≤ length self.now }
        ensures { result ≡ span_at self.now at }
    {
        let _ = &self.bytes; // in memory, so that each offset fits
        Span {
            length: self.u32_at(at),
            start: self.u32_at(at + 4),
        }
    }

    /// The short allocation descriptor of 8 bytes at an offset (ECMA-167 4/14.14.1).
    pub fn short_at(&self, at: usize) -> Short
        requires { at + 8 ≤ length self.now }
        ensures { result ≡ short_at self.now at }
    {
        let _ = &self.bytes; // in memory, so that each offset fits
        let stored = self.u32_at(at);
        Short {
            kind: kind_of(stored),
            length: length_of(stored),
            block: self.u32_at(at + 4),
        }
    }

    /// The long allocation descriptor of 16 bytes at an offset (ECMA-167 4/14.14.2).
    pub fn long_at(&self, at: usize) -> Long
        requires { at + 16 ≤ length self.now }
        ensures { result ≡ long_at self.now at }
    {
        let _ = &self.bytes; // in memory, so that each offset fits
        let stored = self.u32_at(at);
        let block = self.u32_at(at + 4);
        let part = self.u16_at(at + 8);
        Long {
            kind: kind_of(stored),
            length: length_of(stored),
            at: Addr { part, block },
        }
    }

    /// Whether the entity of 32 bytes at an offset has this name (ECMA-167 1/7.4): its 23 identifier bytes are the
    /// name, padded with zeros. Its flags and its suffix are not looked at, and a name of more than 23 bytes is
    /// nowhere.
    #[tactic(auto, using(crate::proofs::Padded::entity_value, crate::proofs::Padded::entity_has_name, crate::proofs::Padded::name_has_entity))]
    pub fn entity_is(&self, at: usize, name: &[u8]) -> bool
        requires { at + 32 ≤ length self.now }
        ensures value { result ≡ entity_is self.now at name.now }
        ensures named { IsTrue result ↔ (entity_name self.now at ≡ padded 23 name.now) }
    {
        is_padded(&self.bytes[at + 1..at + 24], name)
    }
}
