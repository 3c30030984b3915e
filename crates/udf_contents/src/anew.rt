// The FIDs of a content that is made anew.
ghost use Rattle.std.specs.Prelude.{◌≡◌, ◌+◌, ◌++◌, ◌≤◌, IfOk, OnOk, length};
ghost use Rattle.udf_model.specs.Bytes.{with_number};
ghost use Rattle.udf_model.specs.Tag.{crc_length, retagged};
ghost use Rattle.udf_file_model.specs.Anew.{named_anew, readdressed};
ghost use Rattle.udf_tree_model.specs.Content.{fresh_parent};
ghost use Rattle.udf_contents.specs.Anew.{bytes_at, bytes_over, first_parent, parent_form, parent_from};

use std::alloc::{AllocError, Global};
use udf_dir::{Fid, fid_at, scan};
use udf_field::{Addr, Fields, FieldsMut, retag};
use udf_kept::Fitted;

// Of a descriptor's tag (ECMA-167 3/7.2).
const CRC_LENGTH_AT: usize = 10;

const LOCATION_AT: usize = 12;

// Of a FID (ECMA-167 4/14.4): its ICB, which begins with a length of four bytes.
const ICB_AT: usize = 20;

const ICB_BLOCK_AT: usize = 24;

const ICB_PART_AT: usize = 28;

// The bytes that the CRC of a FID without a name covers.
const FRESH_COVERED: u16 = 24;

// Writes the address of a FID's ICB alone.
fn put_address(fid: &mut [u8], at: Addr)
    requires { 30 ≤ length fid.old }
    ensures { fid.new ≡ readdressed at fid.old }
{
    let mut fields = FieldsMut::over(fid);
    fields.put_u32(ICB_BLOCK_AT, at.block);
    fields.put_u16(ICB_PART_AT, at.part);
}

// Makes a FID name another address, with its tag made anew where it was.
fn name_anew(fid: &mut [u8], at: Addr)
    requires long { 30 ≤ length fid.old }
    requires covered { 16 + crc_length fid.old ≤ length fid.old }
    ensures { fid.new ≡ named_anew at fid.old }
{
    let fields = Fields::over(fid);
    let crc_length = fields.u16_at(CRC_LENGTH_AT);
    let location = fields.u32_at(LOCATION_AT);
    put_address(fid, at);
    retag(fid, crc_length, location);
}

// The first parent FID of a content.
fn first_parent(content: &[u8], size: u32) -> Option<Fid<'_>>
    ensures { result ≡ first_parent size content.now }
{
    for (_, fid) in scan(content, size) {
        if fid.is_parent() {
            return Some(fid);
        }
    }
    None
}

// Appends the bytes of the FID that has a place in a content.
fn add_fid(bytes: &mut Vec<u8>, content: &[u8], size: u32, place: u64) -> Result<(), AllocError>
    ensures { OnOk result (bytes.new.items ≡ bytes.old.items ++ bytes_at size content.now place) }
{
    if place == 0 {
        return Ok(());
    }
    match fid_at(content, place - 1, size) {
        Some(fid) => bytes.extend_from_slice(fid.bytes()),
        None => Ok(()),
    }
}

// Appends the bytes of the FIDs of fitted links in a content.
fn add_fitted(
    bytes: &mut Vec<u8>,
    content: &[u8],
    size: u32,
    fitted: &[Fitted],
) -> Result<(), AllocError>
    ensures { OnOk result (bytes.new.items ≡ bytes.old.items ++ bytes_over size content.now fitted.now) }
{
    for link in fitted {
        add_fid(bytes, content, size, link.place)?;
    }
    Ok(())
}

// The bytes of a fresh parent FID before its numbers are put: a tag with identifier 257 and the version and serial number of the
// entry's, file version 1, and characteristics directory and parent.
fn parent_form(alloc: Global, entry: &[u8]) -> Result<Vec<u8>, AllocError>
    requires { 8 ≤ length entry.now }
    ensures { IfOk result (λ fid. fid.items ≡ parent_form entry.now) }
{
    let tag = [1, 1, entry[2], entry[3], 0, 0, entry[6], entry[7]];
    let mut fid = Vec::from_slice(alloc, &tag)?;
    fid.extend_from_slice(&[0; 8])?;
    fid.extend_from_slice(&[1, 0, 10, 0])?;
    fid.extend_from_slice(&[0; 20])?;
    Ok(fid)
}

// Writes the length of a FID's ICB alone.
fn put_length(fid: &mut [u8], bytes: u32)
    requires { 24 ≤ length fid.old }
    ensures { fid.new ≡ with_number 4 20 bytes fid.old }
{
    let mut fields = FieldsMut::over(fid);
    fields.put_u32(ICB_AT, bytes);
}

// Puts the length of the ICB and the tag of a fresh parent FID.
fn put_fresh(fid: &mut [u8], size: u32, location: u32)
    requires { 40 ≤ length fid.old }
    ensures value { fid.new ≡ retagged location 24 (with_number 4 20 size fid.old) }
    ensures covered { crc_length fid.new ≡ 24 }
{
    put_length(fid, size);
    retag(fid, FRESH_COVERED, location);
}

// A fresh parent FID (ECMA-167 4/14.4), without a name and with an ICB of one block of `size` bytes.
fn fresh_parent(
    alloc: Global,
    size: u32,
    entry: &[u8],
    location: u32,
    above: Addr,
) -> Result<Vec<u8>, AllocError>
    requires { 8 ≤ length entry.now }
    ensures { IfOk result (λ fid. fid.items ≡ fresh_parent size entry.now location above) }
{
    let mut fid = parent_form(alloc, entry)?;
    put_fresh(&mut fid, size, location);
    name_anew(&mut fid, above);
    Ok(fid)
}

// The parent FID of a content that names the address above: the first that stands there, or a fresh one.
fn parent_fid(
    alloc: Global,
    content: &[u8],
    size: u32,
    entry: &[u8],
    location: u32,
    above: Addr,
) -> Result<Vec<u8>, AllocError>
    requires { 8 ≤ length entry.now }
    ensures { IfOk result (λ fid. fid.items ≡ parent_from size entry.now location above (first_parent size content.now)) }
{
    let Some(fid) = first_parent(content, size) else {
        return fresh_parent(alloc, size, entry, location, above);
    };
    let mut bytes = Vec::from_slice(alloc, fid.bytes())?;
    name_anew(&mut bytes, above);
    Ok(bytes)
}

/// The content of a directory, made anew: the parent FID that names the address above, and the FIDs of fitted links, byte for byte.
/// `entry` is the directory's block, and `location` the block where its FIDs stand.
pub(crate) fn content_anew(
    alloc: Global,
    content: &[u8],
    size: u32,
    entry: &[u8],
    location: u32,
    above: Addr,
    fitted: &[Fitted],
) -> Result<Vec<u8>, AllocError>
    requires { 8 ≤ length entry.now }
    ensures { IfOk result (λ bytes. bytes.items
        ≡ parent_from size entry.now location above (first_parent size content.now) ++ bytes_over size content.now fitted.now) }
{
    let mut bytes = parent_fid(alloc, content, size, entry, location, above)?;
    add_fitted(&mut bytes, content, size, fitted)?;
    Ok(bytes)
}
