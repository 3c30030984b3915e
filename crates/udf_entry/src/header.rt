// Headers of entries, and the parts of entries and of allocation extents that they measure.
ghost use Rattle.std.specs.Prelude.{◌≡◌, ◌+◌, ◌<◌, ◌≤◌, true, length, IfSome, option_map};
ghost use Rattle.udf_model.specs.Bytes.{IsBytes};
ghost use Rattle.udf_file_model.specs.Entry.{descriptor_bytes, entry_header, extent_body, fits, header_of_id, kind_at};
ghost use Rattle.udf_file_model.specs.Wanted.{base_of};
ghost use Rattle.udf_entry.specs.Opened.{IsOpened};

use udf_field::{Fields, id_at};

// Identifiers of tags: a file entry, an extended file entry and an allocation extent descriptor (ECMA-167 4/7.2.1).
const FILE_ENTRY: u16 = 261;

const EXTENDED_FILE_ENTRY: u16 = 266;

const ALLOCATION_EXTENT: u16 = 258;

// The lengths of the headers of entries.
const FILE_ENTRY_BYTES: usize = 176;

pub(crate) const EXTENDED_BYTES: usize = 216;

const FLAGS_AT: usize = 34;

// How many kinds of allocation descriptors there are.
const KINDS: u16 = 8;

const KNOWN_KINDS: u8 = 4;

// L_AD of an allocation extent, and where its descriptors begin.
const EXTENT_LENGTH_AT: usize = 20;

const EXTENT_BYTES: usize = 24;

// The length of an entry's header, by its identifier.
fn header_of(id: u16) -> Option<usize>
    ensures value { result ≡ header_of_id id }
    ensures least { IfSome result (λ header. 176 ≤ header) }
    ensures most { IfSome result (λ header. header ≤ 216) }
{
    match id {
        FILE_ENTRY => Some(FILE_ENTRY_BYTES),
        EXTENDED_FILE_ENTRY => Some(EXTENDED_BYTES),
        _ => None,
    }
}

/// The kind of an entry's allocation descriptors (ECMA-167 4/14.6.8): 0 short, 1 long, 2 extended, 3 embedded.
pub fn kind_in(block: &[u8]) -> u8
    requires { 36 ≤ length block.now }
    ensures { result ≡ kind_at block.now }
{
    (Fields::over(block).u16_at(FLAGS_AT) % KINDS) as u8
}

// Whether an entry with this header fits its block.
#[tactic(auto, unfolding(udf_file_model::specs::Entry::fits))]
fn fits_block(block: &[u8], header: usize) -> bool
    requires least { 176 ≤ header }
    requires most { header ≤ 216 }
    ensures fits { result ≡ fits header block.now }
    ensures opened { result ≡ true → IsOpened header block.now }
{
    if block.len() < header {
        return false;
    }
    let fields = Fields::over(block);
    let attributes = fields.u32_at(header - 8) as u64;
    let descriptors = fields.u32_at(header - 4) as u64;
    let within = header as u64 + attributes + descriptors <= block.len() as u64;
    kind_in(block) < KNOWN_KINDS && within
}

/// The length of the header of the readable entry in a block at a location.
#[tactic(auto, unfolding(udf_file_model::specs::Entry::entry_header))]
pub fn header_at(block: &[u8], location: u32) -> Option<usize>
    ensures value { result ≡ entry_header location block.now }
    ensures opened { IfSome result (λ header. IsOpened header block.now) }
    ensures bytes { IsBytes block.now }
{
    let header = header_of(id_at(block, location)?)?;
    if fits_block(block, header) {
        Some(header)
    } else {
        None
    }
}

/// The bytes of the descriptors of a whole allocation extent in a block at a location.
#[tactic(auto, unfolding(udf_file_model::specs::Entry::extent_body))]
pub(crate) fn extent_in(block: &[u8], location: u32) -> Option<&[u8]>
    ensures body { option_map (λ body. body.now) result ≡ extent_body location block.now }
    ensures short { IfSome result (λ body. length body.now ≤ length block.now) }
    ensures bytes { IsBytes block.now }
{
    let Some(ALLOCATION_EXTENT) = id_at(block, location) else {
        return None;
    };
    if block.len() < EXTENT_BYTES {
        return None;
    }
    let many = Fields::over(block).u32_at(EXTENT_LENGTH_AT) as usize;
    if block.len() < EXTENT_BYTES + many {
        return None;
    }
    Some(&block[EXTENT_BYTES..EXTENT_BYTES + many])
}

/// Where the body of the entry with this header begins.
pub fn base_in(block: &[u8], header: usize) -> usize
    requires { IsOpened header block.now }
    ensures base { result ≡ base_of header block.now }
    ensures room { result + descriptor_bytes header block.now ≤ length block.now }
    ensures least { 176 ≤ result }
{
    header + Fields::over(block).u32_at(header - 8) as usize
}
