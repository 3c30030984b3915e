// File identifier descriptors.
ghost use Rattle.std.specs.Prelude.{◌≡◌, ◌≤◌, length};
ghost use Rattle.udf_model.specs.Tag.{is_id};
ghost use Rattle.udf_model.specs.Tag.{whole_id as id_of_whole};
ghost use Rattle.udf_dir.specs.Bits.{bits_of};
ghost use Rattle.udf_file_model.specs.Fid.{begins_with_fid, characteristics, fid_at, fid_length, has_parent_bit, is_deleted, is_live, is_parent, name, target};

use crate::Marks;
use bitflags::Flags;
use std::marker::Model;
use udf_field::{Fields, Long, whole_id};

// Offsets of a FID's fields (ECMA-167 4/14.4).
const MARKS_AT: usize = 18;

const NAME_LENGTH_AT: usize = 19;

const TARGET_AT: usize = 20;

const USE_LENGTH_AT: usize = 36;

const USE_AT: usize = 38;

// The identifier of a FID's tag.
const FID_ID: u16 = 257;

/// A file identifier descriptor (ECMA-167 4/14.4) in the content that it was scanned from, seen as the list of its
/// bytes.
#[derive(Drop)]
pub struct Fid<'a> {
    bytes: &'a [u8],
}

impl<'a> Model for Fid<'a> {
    ghost use Rattle.std.specs.Prelude.{◌≡◌, ℕ, List, length};
    ghost use Rattle.udf_file_model.specs.Fid.{fid_length};

    ghost Value = { List ℕ };

    ghost view = { λ fid. fid.bytes.now };

    ghost invariant = { λ fid. length fid.bytes.now ≡ fid_length fid.bytes.now };
}

#[tactic(auto, using(crate::proofs::Lengths::room, crate::proofs::Bits::deleted_bit, crate::proofs::Bits::parent_bit))]
impl<'a> Fid<'a> {
    /// The bytes of the whole descriptor, padding included.
    pub fn bytes(&self) -> &'a [u8]
        ensures { result.now ≡ self.now }
    {
        self.bytes
    }

    /// The file characteristics (ECMA-167 4/14.4.3).
    pub fn marks(&self) -> Marks
        ensures { bits_of result ≡ characteristics self.now }
    {
        Marks::from_bits_retain(self.bytes[MARKS_AT])
    }

    /// The ICB of the file that is named (ECMA-167 4/14.4.5).
    pub fn target(&self) -> Long
        ensures { result ≡ target self.now }
    {
        Fields::over(self.bytes).long_at(TARGET_AT)
    }

    /// The bytes of the name (ECMA-167 4/14.4.8), in OSTA Compressed Unicode where they are in order.
    #[tactic(auto, unfolding(udf_file_model::specs::Fid::name))]
    pub fn name(&self) -> &'a [u8]
        ensures { result.now ≡ name self.now }
    {
        let fields = Fields::over(self.bytes);
        let (_, named) = self
            .bytes
            .split_at(USE_AT + fields.u16_at(USE_LENGTH_AT) as usize);
        let (name, _) = named.split_at(fields.u8_at(NAME_LENGTH_AT) as usize);
        name
    }

    /// Whether the FID names a file: it is neither deleted nor a parent FID, and has a name and an ICB.
    #[tactic(auto, unfolding(udf_file_model::specs::Fid::is_live))]
    pub fn is_live(&self) -> bool
        ensures { result ≡ is_live self.now }
    {
        let named = self.bytes[NAME_LENGTH_AT] > 0;
        let stands = self.target().length != 0;
        !self.is_deleted() && !self.is_parent() && named && stands
    }

    /// Whether the FID names the parent of its directory: it has the parent bit, and is not deleted.
    #[tactic(auto, unfolding(udf_file_model::specs::Fid::is_parent))]
    pub fn is_parent(&self) -> bool
        ensures { result ≡ is_parent self.now }
    {
        self.has_parent_bit() && !self.is_deleted()
    }

    /// Whether the FID is deleted (ECMA-167 4/14.4.3).
    pub fn is_deleted(&self) -> bool
        ensures { result ≡ is_deleted self.now }
    {
        self.marks().contains(Marks::DELETED)
    }

    fn has_parent_bit(&self) -> bool
        ensures { result ≡ has_parent_bit self.now }
    {
        self.marks().contains(Marks::PARENT)
    }
}

// The length that the FID at the front of some bytes has by its own fields.
#[tactic(auto, using(crate::proofs::Lengths::length_is))]
pub(crate) fn length_of(bytes: &[u8]) -> usize
    requires { 38 ≤ length bytes.now }
    ensures { result ≡ fid_length bytes.now }
{
    let fields = Fields::over(bytes);
    let variable = fields.u16_at(USE_LENGTH_AT) as usize + fields.u8_at(NAME_LENGTH_AT) as usize;
    (USE_AT + variable + 3) / 4 * 4
}

// Whether some bytes have the whole tag of a FID.
fn is_tagged(bytes: &[u8]) -> bool
    ensures { result ≡ is_id 257 (id_of_whole bytes.now) }
{
    match whole_id(bytes) {
        Some(id) => id == FID_ID,
        None => false,
    }
}

// Whether a whole FID of at most `size` bytes begins some bytes.
#[tactic(auto, using(crate::proofs::Beginning::too_short, crate::proofs::Beginning::past_end, crate::proofs::Beginning::past_block, crate::proofs::Beginning::tag_decides))]
fn begins_with_fid(bytes: &[u8], size: u32) -> bool
    ensures { result ≡ begins_with_fid size bytes.now }
{
    if bytes.len() < USE_AT {
        return false;
    }
    let length = length_of(bytes);
    if length > bytes.len() {
        return false;
    }
    if length > size as usize {
        return false;
    }
    is_tagged(&bytes[..length])
}

// The whole FID of at most `size` bytes that begins some bytes.
pub(crate) fn fid_in(bytes: &[u8], size: u32) -> Option<Fid<'_>>
    ensures { result ≡ fid_at size bytes.now }
{
    if begins_with_fid(bytes, size) {
        let (fid, _) = bytes.split_at(length_of(bytes));
        Some(Fid { bytes: fid })
    } else {
        None
    }
}
