// Names and dstrings, written.
ghost use Rattle.std.specs.Prelude.{◌≡◌, ◌+◌, ◌-◌, ◌*◌, ◌<◌, ◌≤◌, ◌⊎◌, ◌++◌, ◌∷◌, [], IfOk, IfErr, OnOk, OnErr, length, take, true, Ok, Err, nat_lt, if◌then◌else◌};
ghost use Rattle.std.specs.Str.{chars};
ghost use Rattle.std.specs.Char.Escape.{encode_utf16};
ghost use Rattle.udf_text.specs.declared.fault.TextFault.TheVariants.{Memory, TooLong};
ghost use Rattle.udf_text.specs.Compressed.{encoding, decoding, dstring, dstring_decoding, wide, is_narrow, unit_bytes};
ghost use Rattle.udf_text.specs.Size.{size_of};

use crate::size::{Size, measure};
use crate::{Name, TextFault};
use std::alloc::Global;

/// The compression ID of 8 bits a character (OSTA UDF 2.1.1).
pub(crate) const NARROW_ID: u8 = 8;

/// The compression ID of 16 bits a unit.
pub(crate) const WIDE_ID: u8 = 16;

/// The longest name whose length one byte tells, in bytes.
const LONGEST: usize = 255;

/// The bytes of the name in OSTA Compressed Unicode (OSTA UDF 2.1.1), at most 255.
pub fn encode_name(alloc: Global, name: &Name) -> Result<Vec<u8>, TextFault>
    ensures bytes { IfOk result (λ bytes. bytes.items ≡ encoding name.now) }
    ensures fits { OnOk result (length (encoding name.now) ≤ 255) }
    ensures faults { IfErr result (λ fault. (fault ≡ Memory)
        ⊎ ((fault ≡ TooLong) × (255 < length (encoding name.now)))) }
    ensures decodes { IfOk result (λ bytes. decoding bytes.items ≡ Ok name.now) }
{
    let size = measure(name.text.as_str());
    let used = size.bytes();
    if used > LONGEST {
        return Err(TextFault::TooLong);
    }
    let mut bytes = vec![in alloc; 0u8; used]?;
    fill(name.text.as_str(), size, &mut bytes);
    Ok(bytes)
}

/// Writes the name as a dstring (OSTA UDF 2.1.3) over a whole field of 1 to 256 bytes. Takes no memory.
pub fn encode_dstring(name: &Name, into: &mut [u8]) -> Result<(), TextFault>
    requires { (1 ≤ length into.old) × (length into.old ≤ 256) }
    ensures answer { result
        ≡ (if nat_lt (length (encoding name.now)) (length into.old) then Ok tt else Err TooLong) }
    ensures written { OnOk result (into.new ≡ dstring (length into.old) name.now) }
    ensures unchanged { OnErr result (into.new ≡ into.old) }
    ensures decodes { OnOk result (dstring_decoding into.new ≡ Ok name.now) }
{
    let size = measure(name.text.as_str());
    let used = size.bytes();
    let last = into.len() - 1;
    if used > last {
        return Err(TextFault::TooLong);
    }
    into.fill(0);
    fill(name.text.as_str(), size, &mut into[..used]);
    into[last] = used as u8;
    Ok(())
}

/// Fills the bytes with the encoded text.
fn fill(text: &str, size: Size, into: &mut [u8])
    requires { (size ≡ size_of (chars text.now)) × (length into.old ≡ length (encoding (chars text.now))) }
    ensures { into.new ≡ encoding (chars text.now) }
{
    if size.units == 0 {
        return;
    }
    if size.wide {
        fill_wide(text, into);
    } else {
        fill_narrow(text, into);
    }
}

fn fill_narrow(text: &str, into: &mut [u8])
    requires { (is_narrow (chars text.now) ≡ true) × (length into.old ≡ 1 + length (chars text.now)) }
    ensures { into.new ≡ 8 ∷ chars text.now }
{
    into[0] = NARROW_ID;
    let mut at = 1;
    for c in text.chars() {
        into[at] = c as u8;
        at += 1;
    }
}

fn fill_wide(text: &str, into: &mut [u8])
    requires { length into.old ≡ 1 + length (wide (chars text.now)) }
    ensures { into.new ≡ 16 ∷ wide (chars text.now) }
{
    into[0] = WIDE_ID;
    let mut at = 1;
    for c in text.chars() {
        at = put_character(c, into, at);
    }
}

/// Writes a character in UTF-16 at a place, and tells the place after it.
fn put_character(c: char, into: &mut [u8], at: usize) -> usize
    requires { at + 2 * length (encode_utf16 c) ≤ length into.old }
    ensures end { result ≡ at + 2 * length (encode_utf16 c) }
    ensures len { length into.new ≡ length into.old }
    ensures written { take result into.new ≡ take at into.old ++ wide (c ∷ []) }
{
    let mut room = [0u16; 2];
    let units = c.encode_utf16(&mut room);
    put_unit(units[0], into, at);
    if units.len() == 1 {
        return at + 2;
    }
    put_unit(units[1], into, at + 2);
    at + 4
}

/// Writes a unit at a place, the higher byte first.
fn put_unit(unit: u16, into: &mut [u8], at: usize)
    requires { at + 2 ≤ length into.old }
    ensures len { length into.new ≡ length into.old }
    ensures written { take (at + 2) into.new ≡ take at into.old ++ unit_bytes unit }
{
    into[at] = (unit / 256) as u8;
    into[at + 1] = (unit % 256) as u8;
}
