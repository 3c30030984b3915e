// The values of an entry that a mend may change.
ghost use Rattle.std.specs.Prelude.{◌≡◌, ◌+◌, ◌-◌, ◌≤◌, ◌∷◌, ℕ, List, [], ◌==◌, if◌then◌else◌, length};
ghost use Rattle.udf_model.specs.Tag.{retagged};
ghost use Rattle.udf_file_model.specs.Entry.{body_of};
ghost use Rattle.udf_file_model.specs.Wanted.{cleared, field, fields_of, own, with_fields};
ghost use Rattle.udf_entry.specs.Opened.{IsOpened};

use crate::header::EXTENDED_BYTES;
use udf_field::{Fields, FieldsMut, retag};

// Offsets of the fields of an entry (ECMA-167 4/14.9 and 4/14.17).
const LINKS_AT: usize = 48;

const INFORMATION_AT: usize = 56;

const OBJECT_SIZE_AT: usize = 64;

const STREAM_AT: usize = 152;

// The bytes of a tag, which its CRC does not cover (ECMA-167 3/7.2).
const TAG_BYTES: usize = 16;

/// The values that a mend may change.
#[derive(Clone, Copy, Debug, PartialEq, Eq)]
pub struct Values {
    /// The information length in bytes.
    pub information: u64,
    /// The object size in bytes, of an extended entry.
    pub object_size: u64,
    pub links: u16,
    pub id: u64,
    /// Whether an extended entry has no stream directory from now on.
    pub clear: bool,
    /// The bytes of its allocation descriptors, or of its embedded content.
    pub bytes: u32,
}

impl Values {
    ghost use Rattle.udf_entry.specs.ValuesView.{wanted_of};

    /// The values that the entry with this header has.
    #[tactic(auto, using(crate::proofs::Bodied::body_length))]
    pub fn of(block: &[u8], header: usize) -> Values
        requires { IsOpened header block.now }
        ensures own { wanted_of result (body_of header block.now) ≡ own header block.now }
        ensures bytes { result.bytes ≡ length (body_of header block.now) }
    {
        let fields = Fields::over(block);
        Values {
            information: fields.u64_at(INFORMATION_AT),
            object_size: fields.u64_at(OBJECT_SIZE_AT),
            links: fields.u16_at(LINKS_AT),
            id: fields.u64_at(header - 16),
            clear: false,
            bytes: fields.u32_at(header - 4),
        }
    }

    /// Writes the values into an entry with this header; its body and its tag stay.
    #[tactic(auto, unfolding(udf_file_model::specs::Wanted::with_fields, udf_file_model::specs::Wanted::fields_of))]
    pub fn put(&self, block: &mut [u8], header: usize)
        requires { IsOpened header block.old }
        ensures { (body : List ℕ) → length body ≡ self.now.bytes
            → block.new ≡ with_fields (fields_of header (wanted_of self.now body)) block.old }
    {
        self.put_extended(block, header);
        let mut fields = FieldsMut::over(block);
        fields.put_u64(header - 16, self.id);
        fields.put_u64(INFORMATION_AT, self.information);
        fields.put_u16(LINKS_AT, self.links);
        fields.put_u32(header - 4, self.bytes);
    }

    // Writes what only an extended entry has.
    #[tactic(auto, unfolding(udf_file_model::specs::Wanted::with_fields))]
    fn put_extended(&self, block: &mut [u8], header: usize)
        requires { header ≤ length block.old }
        ensures { block.new
            ≡ with_fields (if header == 216 then field 8 64 self.now.object_size ∷ cleared self.now.clear else []) block.old }
    {
        if header != EXTENDED_BYTES {
            return;
        }
        self.put_stream(block);
        let mut fields = FieldsMut::over(block);
        fields.put_u64(OBJECT_SIZE_AT, self.object_size);
    }

    // Writes zeros over the ICB of the stream directory, where there is to be none.
    #[tactic(auto, unfolding(udf_file_model::specs::Wanted::with_fields))]
    fn put_stream(&self, block: &mut [u8])
        requires { 216 ≤ length block.old }
        ensures { block.new ≡ with_fields (cleared self.now.clear) block.old }
    {
        if !self.clear {
            return;
        }
        let mut fields = FieldsMut::over(block);
        fields.put_u32(STREAM_AT + 12, 0);
        fields.put_u32(STREAM_AT + 8, 0);
        fields.put_u32(STREAM_AT + 4, 0);
        fields.put_u32(STREAM_AT, 0);
    }
}

/// Makes the tag of an entry with this header anew, over header, attributes and so many bytes of its body.
pub fn retag_entry(block: &mut [u8], location: u32, base: usize, bytes: usize)
    requires room { base + bytes ≤ length block.old }
    requires least { 176 ≤ base }
    requires small { length block.old ≤ 4096 }
    ensures { block.new ≡ retagged location (base + bytes - 16) block.old }
{
    retag(block, (base + bytes - TAG_BYTES) as u16, location);
}
