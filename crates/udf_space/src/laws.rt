// What the definitions of space bitmaps mean.
ghost use Rattle.std.specs.Prelude.{◌≡◌, ℕ, ◌+◌, ◌^◌, ◌<◌, ◌≤◌, Bool, false, Some, List, ◌++◌, length, slice_index, take, drop};
ghost use Rattle.udf_model.specs.Bytes.{IsBytes, number_at};
ghost use Rattle.udf_model.specs.Tag.{crc_length, id_at};
ghost use Rattle.udf_space.specs.Bits.{bit_of, bits_of, bytes_for, packed};
ghost use Rattle.udf_space.specs.Area.{bitmap_in, encoded};

/// The bits of a bitmap depend on its own bytes alone, and the bytes of bits hold those bits, and zeros past them.
pub fn bits_law()
    ensures own { (blocks : ℕ) (a b : List ℕ) → take (bytes_for blocks) a ≡ take (bytes_for blocks) b → bits_of blocks a ≡ bits_of blocks b }
    ensures back { (bits : List Bool) (rest : List ℕ) → bits_of (length bits) (packed bits ++ rest) ≡ bits }
    ensures clear { (bits : List Bool) (n : ℕ) → length bits ≤ n → bit_of (packed bits) n ≡ false }
    ensures long { (bits : List Bool) → length (packed bits) ≡ bytes_for (length bits) }
    ensures bytes { (bits : List Bool) → IsBytes (packed bits) }
{}

/// An area that a bitmap is written to is read as that bitmap, and is whole at the location that was given, with the
/// version and serial number that were given, CRC length 0 and CRC 0. What stands after the bits stays.
pub fn encode_law()
    ensures back { (version serial location : ℕ) (bits : List Bool) (area : List ℕ) → length bits < 2 ^ 32 → 24 + bytes_for (length bits) ≤ length area
        → bitmap_in (length bits) (encoded version serial location bits area) ≡ Some bits }
    ensures placed { (version serial location : ℕ) (bits : List Bool) (area : List ℕ) → location < 2 ^ 32 → 24 + bytes_for (length bits) ≤ length area
        → id_at location (encoded version serial location bits area) ≡ Some 264 }
    ensures version { (version serial location : ℕ) (bits : List Bool) (area : List ℕ) → version < 2 ^ 16 → 24 + bytes_for (length bits) ≤ length area
        → number_at 2 (encoded version serial location bits area) 2 ≡ version }
    ensures serial { (version serial location : ℕ) (bits : List Bool) (area : List ℕ) → serial < 2 ^ 16 → 24 + bytes_for (length bits) ≤ length area
        → number_at 2 (encoded version serial location bits area) 6 ≡ serial }
    ensures covers { (version serial location : ℕ) (bits : List Bool) (area : List ℕ) → 24 + bytes_for (length bits) ≤ length area
        → crc_length (encoded version serial location bits area) ≡ 0 }
    ensures crc { (version serial location : ℕ) (bits : List Bool) (area : List ℕ) → 24 + bytes_for (length bits) ≤ length area
        → number_at 2 (encoded version serial location bits area) 8 ≡ 0 }
    ensures reserved { (version serial location : ℕ) (bits : List Bool) (area : List ℕ) → 24 + bytes_for (length bits) ≤ length area
        → slice_index (encoded version serial location bits area) 5 ≡ 0 }
    ensures rest { (version serial location : ℕ) (bits : List Bool) (area : List ℕ) → 24 + bytes_for (length bits) ≤ length area
        → drop (24 + bytes_for (length bits)) (encoded version serial location bits area) ≡ drop (24 + bytes_for (length bits)) area }
    ensures same_length { (version serial location : ℕ) (bits : List Bool) (area : List ℕ) → 24 + bytes_for (length bits) ≤ length area
        → length (encoded version serial location bits area) ≡ length area }
{}
