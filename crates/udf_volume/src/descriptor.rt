//! A volume descriptor as a sequence lists it.
ghost use Rattle.std.specs.Prelude.{◌≡◌, ◌≤◌, length, drop, IfOk};
ghost use Rattle.udf_volume_model.specs.Prevailing.{number_of, subject_of};

use std::alloc::{AllocError, Global};
use std::marker::Model;
use udf_field::Fields;

/// The bytes of a tag.
pub(crate) const TAG: usize = 16;

/// The identifiers of volume descriptors (ECMA-167 3/7.2.1).
pub(crate) const PRIMARY: u16 = 1;

pub(crate) const POINTER: u16 = 3;

pub(crate) const IMPLEMENTATION_USE: u16 = 4;

pub(crate) const PARTITION: u16 = 5;

pub(crate) const LOGICAL_VOLUME: u16 = 6;

pub(crate) const UNALLOCATED_SPACE: u16 = 7;

pub const TERMINATING: u16 = 8;

/// A descriptor of a sequence: the identifier of its tag, and its bytes behind the tag. Offsets are those in the whole
/// descriptor, of which the first 512 bytes hold its fields.
#[derive(Debug, Drop)]
pub struct Descriptor {
    id: u16,
    body: Vec<u8>,
}

impl Model for Descriptor {
    ghost use Rattle.std.specs.Prelude.{◌≤◌, length};
    ghost use Rattle.udf_volume_model.specs.Sequence.{Descriptor};

    ghost Value = { Descriptor };

    ghost view = { λ d. record { id = d.id; body = d.body.items } };

    ghost invariant = { λ d. 496 ≤ length d.body.items };
}

impl Descriptor {
    /// The descriptor in a block, whose tag has this identifier.
    pub(crate) fn of(alloc: Global, id: u16, block: &[u8]) -> Result<Descriptor, AllocError>
        requires { 512 ≤ length block.now }
        ensures id { IfOk result (λ d. d.id ≡ id) }
        ensures body { IfOk result (λ d. d.body ≡ drop 16 block.now) }
    {
        let body = block[TAG..].to_vec(alloc)?;
        Ok(Descriptor { id, body })
    }

    /// The identifier of its tag.
    pub fn id(&self) -> u16
        ensures { result ≡ self.now.id }
    {
        self.id
    }

    /// Its bytes behind the tag.
    pub fn body(&self) -> &[u8]
        ensures bytes { result.now ≡ self.now.body }
        ensures room { 496 ≤ length result.now }
    {
        &self.body
    }

    /// Its fields, by their offsets behind the tag: offset 0 is that of the descriptor's byte 16.
    pub fn fields(&self) -> Fields<'_>
        ensures fields { result ≡ self.now.body }
        ensures room { 496 ≤ length result }
    {
        Fields::over(&self.body)
    }

    /// Its sequence number.
    #[tactic(auto, unfolding(udf_model::specs::Bytes::number_at))]
    pub fn number(&self) -> u32
        ensures { result ≡ number_of self.now }
    {
        self.fields().u32_at(0)
    }

    /// What it is about: of a partition descriptor the bytes of its number, of an implementation use descriptor its 23
    /// identifier bytes, of the other kinds nothing.
    #[tactic(auto, unfolding(udf_volume_model::specs::Prevailing::subject_of))]
    pub fn subject(&self) -> &[u8]
        ensures { result.now ≡ subject_of self.now }
    {
        match self.id {
            PARTITION => &self.body[6..8],
            IMPLEMENTATION_USE => &self.body[5..28],
            _ => &[],
        }
    }
}
