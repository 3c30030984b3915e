//! Descriptors of 512 bytes as they are put together, and the blocks of an image.
ghost use Rattle.std.specs.Prelude.{◌+◌, ◌≤◌, ◌<◌, ◌≡◌, length};
ghost use Rattle.udf_model.specs.Bytes.{written_at};

use udf_field::retag;

/// The bytes of a descriptor. The rest of a longer block stays zero.
pub(crate) const DESCRIPTOR: usize = 512;

/// A descriptor's CRC covers all of it behind the tag.
pub(crate) const WHOLE: u16 = 496;

/// A field of the character set that all texts have (UDF 2.1.2).
pub(crate) const CHARSPEC: &[u8; 24] = b"\0OSTA Compressed Unicode";

/// The writer of every structure (UDF 2.1.5).
pub(crate) const WRITER: &[u8; 11] = b"*UDFTOOLS-R";

/// The domain of logical volumes and file sets (UDF 2.1.5.3).
pub(crate) const DOMAIN: &[u8; 19] = b"*OSTA UDF Compliant";

/// The revision 2.01.
pub(crate) const REVISION: [u8; 2] = [1, 2];

/// 2024-02-29 12:34:56 UTC (ECMA-167 1/7.3).
pub(crate) const STAMP: [u8; 12] = [
    0x00, 0x10, 0xE8, 0x07, 0x02, 0x1D, 0x0C, 0x22, 0x38, 0, 0, 0,
];

/// The identifier of the volume, the logical volume and the file set.
pub(crate) const NAME: &[u8; 8] = b"LinuxUDF";

/// Puts bytes at an offset.
pub(crate) fn put(block: &mut [u8], at: usize, bytes: &[u8])
    requires { at + length bytes.now ≤ length block.old }
    ensures { block.new ≡ written_at at bytes.now block.old }
{
    block[at..at + bytes.len()].copy_from_slice(bytes);
}

/// Puts a number of four bytes at an offset.
pub(crate) fn put_number(block: &mut [u8], at: usize, number: u32)
    requires { at + 4 ≤ length block.old }
{
    put(block, at, &number.to_le_bytes());
}

/// Puts a text of 8 bits a character into a dstring of so many bytes (ECMA-167 1/7.2.12).
pub(crate) fn put_dstring(block: &mut [u8], at: usize, field: usize, text: &[u8])
    requires room { at + field ≤ length block.old }
    requires fits { length text.now + 2 ≤ field }
    requires short { length text.now < 255 }
{
    block[at] = 8;
    put(block, at + 1, text);
    block[at + field - 1] = (text.len() + 1) as u8;
}

/// Begins a descriptor with its tag: version 3, serial number 1, and a CRC over the `covered` bytes behind it.
pub(crate) fn put_tag(block: &mut [u8], id: u16, covered: u16, location: u32)
    requires { 16 + covered ≤ length block.old }
{
    let [low, high] = id.to_le_bytes();
    put(block, 0, &[low, high, 3, 0, 0, 0, 1, 0]);
    retag(block, covered, location);
}

/// A descriptor under a tag that covers all of it.
pub(crate) fn tagged(mut descriptor: [u8; 512], id: u16, location: u32) -> [u8; 512] {
    put_tag(&mut descriptor, id, WHOLE, location);
    descriptor
}

/// Puts a descriptor at the beginning of a block that lies in the image.
pub(crate) fn put_block(image: &mut [u8], size: u32, block: u32, descriptor: &[u8; 512]) {
    let start = block as u64 * size as u64;
    if start + DESCRIPTOR as u64 <= image.len() as u64 {
        put(image, start as usize, descriptor);
    }
}
