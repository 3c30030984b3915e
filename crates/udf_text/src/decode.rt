// Names and dstrings, read.
ghost use Rattle.std.specs.Prelude.{◌≡◌, ◌<◌, ◌⊎◌, ◌%◌, IfOk, length, Ok, Err};
ghost use Rattle.udf_text.specs.declared.fault.TextFault.TheVariants.{Memory};
ghost use Rattle.udf_text.specs.Compressed.{decoding, dstring_decoding, wide_decoding, units};

use crate::encode::{NARROW_ID, WIDE_ID};
use crate::{Name, TextFault};
use std::alloc::{AllocError, Global};

/// The name that the bytes encode, in 8 or in 16 bits a unit (OSTA UDF 2.1.1). No bytes are the empty name.
pub fn decode_name(alloc: Global, bytes: &[u8]) -> Result<Name, TextFault>
    ensures answer { (result ≡ Err Memory) ⊎ (result ≡ decoding bytes.now) }
{
    let Some((id, rest)) = bytes.split_first() else {
        return Ok(Name {
            text: String::new(alloc),
        });
    };
    match *id {
        NARROW_ID => decode_narrow(alloc, rest),
        WIDE_ID => decode_wide(alloc, rest),
        _ => Err(TextFault::BadCompression),
    }
}

/// The name of a dstring (OSTA UDF 2.1.3), whose last byte tells the length of the encoded name.
pub fn decode_dstring(alloc: Global, field: &[u8]) -> Result<Name, TextFault>
    requires { 0 < length field.now }
    ensures answer { (result ≡ Err Memory) ⊎ (result ≡ dstring_decoding field.now) }
{
    let used = field[field.len() - 1] as usize;
    if used < field.len() {
        decode_name(alloc, &field[..used])
    } else {
        Err(TextFault::BadLength)
    }
}

fn decode_narrow(alloc: Global, bytes: &[u8]) -> Result<Name, TextFault>
    ensures { (result ≡ Err Memory) ⊎ (result ≡ Ok bytes.now) }
{
    let mut text = String::new(alloc);
    for byte in bytes {
        text.push(*byte as char)?;
    }
    Ok(Name { text })
}

fn decode_wide(alloc: Global, bytes: &[u8]) -> Result<Name, TextFault>
    ensures { (result ≡ Err Memory) ⊎ (result ≡ wide_decoding bytes.now) }
{
    if bytes.len() % 2 == 1 {
        return Err(TextFault::OddLength);
    }
    let units = units_of(alloc, bytes)?;
    match String::from_utf16(alloc, units.as_slice())? {
        Ok(text) => Ok(Name { text }),
        Err(_) => Err(TextFault::LoneSurrogate),
    }
}

/// The big-endian units of an even number of bytes.
fn units_of(alloc: Global, bytes: &[u8]) -> Result<Vec<u16>, AllocError>
    requires { length bytes.now % 2 ≡ 0 }
    ensures { IfOk result (λ read. read.items ≡ units bytes.now) }
{
    let mut read = Vec::with_capacity(alloc, bytes.len() / 2)?;
    let mut at = 0;
    while at < bytes.len() {
        read.push(u16::from(bytes[at]) * 256 + u16::from(bytes[at + 1]))?;
        at += 2;
    }
    Ok(read)
}
