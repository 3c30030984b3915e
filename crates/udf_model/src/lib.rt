//! The definitions on which every crate of the project stands: bytes and numbers, the CRC, descriptor tags, and
//! images cut into blocks, as lists of bytes in the terms of ECMA-167. But for the test of a block size its code is laws:
//! functions with an empty body whose contract says what the definitions mean. It stands on `byteorder`'s numbers.
#![tactic(auto)]

ghost use Rattle.std.specs.Prelude.{◌≡◌, ℕ, ◌+◌, ◌^◌, ◌<◌, ◌≤◌, ◌⊎◌, List, length, take, drop, slice_index, true, Some};
ghost use Rattle.udf_model.specs.Size.{is_size};
ghost use Rattle.udf_model.specs.Bytes.{IsBytes, number_at, with_number, written_at};
ghost use Rattle.byteorder.specs.Endian.{little_bytes};
ghost use Rattle.udf_model.specs.Crc.{IsCrc, crc_of};
ghost use Rattle.udf_model.specs.Tag.{IsWhole, crc_length, id_at, identifier, is_whole, location, relocated, retagged};

/// The block sizes of the profile in bytes, ascending.
pub const BLOCK_SIZES: [u32; 4] = [512, 1024, 2048, 4096];

/// Whether a number is a block size of the profile: 512, 1024, 2048 or 4096 bytes.
#[tactic(auto, unfolding(crate::specs::Size::is_size))]
pub fn is_block_size(size: u32) -> bool
    ensures { result ≡ is_size size }
{
    matches!(size, 512 | 1024 | 2048 | 4096)
}

/// The CRC is the one remainder of the bytes' polynomial.
pub fn crc_law()
    ensures remainder { (bytes : List ℕ) → IsBytes bytes → IsCrc bytes (crc_of bytes) }
    ensures unique { (bytes : List ℕ) (r s : ℕ) → IsCrc bytes r → IsCrc bytes s → r ≡ s }
{}

/// The test of a whole tag passes exactly those areas that a whole tag begins.
pub fn tag_law()
    ensures passes { (area : List ℕ) → IsBytes area → IsWhole area → is_whole area ≡ true }
    ensures only { (area : List ℕ) → IsBytes area → is_whole area ≡ true → IsWhole area }
{}

/// Bytes that are written within an area are there, and nothing else in it is new.
pub fn written_law()
    ensures back { (at : ℕ) (bytes area : List ℕ) → at + length bytes ≤ length area → take (length bytes) (drop at (written_at at bytes area)) ≡ bytes }
    ensures front { (at : ℕ) (bytes area : List ℕ) → at + length bytes ≤ length area → take at (written_at at bytes area) ≡ take at area }
    ensures rest { (at : ℕ) (bytes area : List ℕ) → at + length bytes ≤ length area
        → drop (at + length bytes) (written_at at bytes area) ≡ drop (at + length bytes) area }
    ensures same_length { (at : ℕ) (bytes area : List ℕ) → at + length bytes ≤ length area → length (written_at at bytes area) ≡ length area }
    ensures number { (n at value : ℕ) (area : List ℕ) → with_number n at value area ≡ written_at at (little_bytes n value) area }
{}

/// A number that is written within an area is read back, each number apart from it is read as before, and nothing
/// but its own bytes is new. A number of n bytes is below 256^n, and a number of one byte is that byte.
pub fn number_law()
    ensures back { (n at value : ℕ) (area : List ℕ) → at + n ≤ length area → value < 256 ^ n
        → number_at n (with_number n at value area) at ≡ value }
    ensures apart { (n at value m from : ℕ) (area : List ℕ) → at + n ≤ length area → (from + m ≤ at) ⊎ (at + n ≤ from)
        → number_at m (with_number n at value area) from ≡ number_at m area from }
    ensures front { (n at value : ℕ) (area : List ℕ) → at + n ≤ length area → take at (with_number n at value area) ≡ take at area }
    ensures rest { (n at value : ℕ) (area : List ℕ) → at + n ≤ length area → drop (at + n) (with_number n at value area) ≡ drop (at + n) area }
    ensures same_length { (n at value : ℕ) (area : List ℕ) → at + n ≤ length area → length (with_number n at value area) ≡ length area }
    ensures bytes { (n at value : ℕ) (area : List ℕ) → IsBytes area → IsBytes (with_number n at value area) }
    ensures byte { (bytes : List ℕ) (at : ℕ) → number_at 1 bytes at ≡ slice_index bytes at }
    ensures fits { (n at : ℕ) (bytes : List ℕ) → IsBytes bytes → number_at n bytes at < 256 ^ n }
{}

/// A whole area at another location is whole there and keeps its identifier; but for location (bytes 12 to 15) and
/// checksum (byte 4) it is the area that it was.
pub fn relocate_law()
    ensures whole { (at : ℕ) (area : List ℕ) → 16 ≤ length area → is_whole area ≡ true → is_whole (relocated at area) ≡ true }
    ensures moved { (at : ℕ) (area : List ℕ) → 16 ≤ length area → at < 2 ^ 32 → location (relocated at area) ≡ at }
    ensures found { (at : ℕ) (area : List ℕ) → 16 ≤ length area → at < 2 ^ 32 → is_whole area ≡ true → id_at at (relocated at area) ≡ Some (identifier area) }
    ensures front { (at : ℕ) (area : List ℕ) → 16 ≤ length area → take 4 (relocated at area) ≡ take 4 area }
    ensures middle { (at : ℕ) (area : List ℕ) → 16 ≤ length area → take 7 (drop 5 (relocated at area)) ≡ take 7 (drop 5 area) }
    ensures body { (at : ℕ) (area : List ℕ) → 16 ≤ length area → drop 16 (relocated at area) ≡ drop 16 area }
    ensures same_length { (at : ℕ) (area : List ℕ) → 16 ≤ length area → length (relocated at area) ≡ length area }
    ensures bytes { (at : ℕ) (area : List ℕ) → IsBytes area → IsBytes (relocated at area) }
{}

/// An area whose tag is made anew is whole at the location, over so many bytes, with the identifier that it had; but
/// for checksum (byte 4), CRC, CRC length and location (bytes 8 to 15) it is the area that it was.
pub fn retag_law()
    ensures whole { (at many : ℕ) (area : List ℕ) → IsBytes area → 16 + many ≤ length area → many < 2 ^ 16 → is_whole (retagged at many area) ≡ true }
    ensures covers { (at many : ℕ) (area : List ℕ) → 16 ≤ length area → many < 2 ^ 16 → crc_length (retagged at many area) ≡ many }
    ensures moved { (at many : ℕ) (area : List ℕ) → 16 ≤ length area → at < 2 ^ 32 → location (retagged at many area) ≡ at }
    ensures found { (at many : ℕ) (area : List ℕ) → IsBytes area → 16 + many ≤ length area → many < 2 ^ 16 → at < 2 ^ 32
        → id_at at (retagged at many area) ≡ Some (identifier area) }
    ensures front { (at many : ℕ) (area : List ℕ) → 16 ≤ length area → take 4 (retagged at many area) ≡ take 4 area }
    ensures middle { (at many : ℕ) (area : List ℕ) → 16 ≤ length area → take 3 (drop 5 (retagged at many area)) ≡ take 3 (drop 5 area) }
    ensures body { (at many : ℕ) (area : List ℕ) → 16 ≤ length area → drop 16 (retagged at many area) ≡ drop 16 area }
    ensures same_length { (at many : ℕ) (area : List ℕ) → 16 ≤ length area → length (retagged at many area) ≡ length area }
    ensures bytes { (at many : ℕ) (area : List ℕ) → IsBytes area → IsBytes (retagged at many area) }
{}
