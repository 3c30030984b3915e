//! What stands in the partition: the space bitmap, the file set, and file entries (ECMA-167 4/14).
ghost use Rattle.std.specs.Prelude.{◌+◌, ◌*◌, ◌≤◌, ◌<◌, ◌≡◌, ◌^◌, ℕ, List, All, length as length_of};
ghost use Rattle.udf_model.specs.Bytes.{written_at};

use crate::block::{
    CHARSPEC, DOMAIN, NAME, REVISION, STAMP, WRITER, put, put_dstring, put_number, put_tag, tagged,
};
use crate::form::Form;
use udf_field::{FieldsMut, Short, relocate};

/// Identifiers of descriptor tags (ECMA-167 4/7.2.1).
const FILE_SET: u16 = 256;

const FILE_IDENTIFIER: u16 = 257;

const SPACE_BITMAP: u16 = 264;

const EXTENDED_FILE_ENTRY: u16 = 266;

/// The blocks of the file set and of the root in the partition; the bitmap stands in block 0.
pub(crate) const FILE_SET_AT: u32 = 1;

pub(crate) const ROOT_AT: u32 = 2;

/// Where the body of an extended file entry begins (ECMA-167 4/14.17).
const BODY: usize = 216;

/// The bytes of a parent's file identifier descriptor.
const PARENT: usize = 40;

// Says of a block that it is free, where its bit lies in the descriptor.
fn set_free(bitmap: &mut [u8; 512], block: u32) {
    let at = 24 + (block / 8) as usize;
    if at < 512 {
        bitmap[at] |= 1 << (block % 8);
    }
}

/// The space bitmap (ECMA-167 4/14.12): a bit a block, 1 where it is free. The first three are used. Its tag has no CRC.
pub(crate) fn space_bitmap(form: &Form) -> [u8; 512] {
    let mut block = [0; 512];
    put_number(&mut block, 16, form.length);
    put_number(&mut block, 20, form.length.div_ceil(8));
    for free in ROOT_AT + 1..form.length {
        set_free(&mut block, free);
    }
    put_tag(&mut block, SPACE_BITMAP, 0, 0);
    block
}

/// The file set descriptor (ECMA-167 4/14.1).
pub(crate) fn file_set(form: &Form) -> [u8; 512] {
    let mut block = [0; 512];
    put(&mut block, 16, &STAMP);
    put(&mut block, 28, &[3, 0, 3, 0, 1, 0, 0, 0, 1]);
    put(&mut block, 48, CHARSPEC);
    put_dstring(&mut block, 112, 128, NAME);
    put(&mut block, 240, CHARSPEC);
    put_dstring(&mut block, 304, 32, NAME);
    put_number(&mut block, 400, form.size);
    put_number(&mut block, 404, ROOT_AT);
    put(&mut block, 417, DOMAIN);
    put(&mut block, 440, &REVISION);
    tagged(block, FILE_SET, FILE_SET_AT)
}

// The file identifier descriptor by which the root names itself as its parent (ECMA-167 4/14.4).
fn parent_identifier(size: u32) -> [u8; PARENT] {
    let mut descriptor = [0; PARENT];
    descriptor[16] = 1;
    descriptor[18] = 0x0A;
    put_number(&mut descriptor, 20, size);
    put_number(&mut descriptor, 24, ROOT_AT);
    put_tag(&mut descriptor, FILE_IDENTIFIER, 24, ROOT_AT);
    descriptor
}

/// ICB file types (ECMA-167 4/14.6.6).
const DIRECTORY: u8 = 4;

const FILE: u8 = 5;

// The fields of an extended file entry but its tag, the length of its body, and its body.
fn put_head(block: &mut [u8; 512], file_type: u8, id: u64, length: u64) {
    put(block, 20, &[4, 0, 0, 0, 1, 0, 0, file_type]);
    put(block, 36, &[0xFF; 8]);
    put(block, 44, &[0xFF, 0x7F, 0, 0, 1]);
    put(block, 56, &length.to_le_bytes());
    put(block, 64, &length.to_le_bytes());
    put(block, 80, &STAMP);
    put(block, 92, &STAMP);
    put(block, 104, &STAMP);
    put(block, 116, &STAMP);
    block[128] = 1;
    put(block, 169, WRITER);
    put(block, 200, &id.to_le_bytes());
}

// How many blocks of 512 bytes an extent has recorded.
fn recorded(extent: &Short) -> u64 {
    if extent.kind == 0 {
        extent.length.div_ceil(512) as u64
    } else {
        0
    }
}

// Puts the descriptors of a list into the body, and the number of recorded blocks.
fn put_list(block: &mut [u8; 512], list: &[Short])
    requires fits { 216 + 8 * length_of list.now ≤ 512 }
    requires lawful { All (λ extent. (extent.kind ≤ 3) × (extent.length < 2 ^ 30)) list.now }
{
    let mut blocks = 0u64;
    for i in 0..list.len() {
        let extent = list[i];
        blocks = blocks.saturating_add(recorded(&extent));
        FieldsMut::over(block).put_short(BODY + 8 * i, extent);
    }
    put(block, 72, &blocks.to_le_bytes());
}

// An extended file entry: short descriptors where the list has any, else the body embedded.
fn entry(file_type: u8, id: u64, bytes: u64, list: &[Short], body: &[u8]) -> [u8; 512]
    requires list { 216 + 8 * length_of list.now ≤ 512 }
    requires lawful { All (λ extent. (extent.kind ≤ 3) × (extent.length < 2 ^ 30)) list.now }
    requires body { 216 + length_of body.now ≤ 512 }
{
    let mut block = [0; 512];
    put_head(&mut block, file_type, id, bytes);
    let used = if list.is_empty() {
        block[34] = 3;
        put(&mut block, BODY, body);
        body.len()
    } else {
        put_list(&mut block, list);
        8 * list.len()
    };
    put_number(&mut block, 212, used as u32);
    put_tag(
        &mut block,
        EXTENDED_FILE_ENTRY,
        (BODY - 16 + used) as u16,
        0,
    );
    block
}

/// An extended file entry of this ICB file type, unique id and information length, with one link and an embedded body of no bytes.
pub fn file_entry(file_type: u8, id: u64, length: u64) -> [u8; 512] {
    entry(file_type, id, length, &[], b"")
}

/// The entry of an empty root.
pub(crate) fn root(form: &Form) -> [u8; 512] {
    let parent = parent_identifier(form.size);
    let mut block = entry(DIRECTORY, 0, PARENT as u64, &[], &parent);
    relocate(&mut block, ROOT_AT);
    block
}

/// Puts an extended file entry (ECMA-167 4/14.17) into a block of the partition of `volume_a`: of a directory or a file, with
/// this unique id and information length, and the short descriptors of `list`, or where it is empty, with `body` embedded.
/// Bitmap and integrity descriptor stay as they are.
pub fn put_entry(
    image: &mut [u8],
    at: u32,
    directory: bool,
    id: u64,
    length: u64,
    list: &[Short],
    body: &[u8],
)
    requires image { length_of image.old ≡ 524288 }
    requires block { at < 750 }
    requires list { 216 + 8 * length_of list.now ≤ 512 }
    requires lawful { All (λ extent. (extent.kind ≤ 3) × (extent.length < 2 ^ 30)) list.now }
    requires body { 216 + length_of body.now ≤ 512 }
    ensures { (block : List ℕ) × (length_of block ≡ 512) × (image.new ≡ written_at ((257 + at) * 512) block image.old) }
{
    let file_type = if directory { DIRECTORY } else { FILE };
    let mut block = entry(file_type, id, length, list, body);
    relocate(&mut block, at);
    put(image, (257 + at as usize) * 512, &block);
}
