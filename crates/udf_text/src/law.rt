// What the definitions of texts say of each other.
ghost use Rattle.std.specs.Prelude.{◌≡◌, ℕ, ◌<◌, ◌≤◌, ◌↔◌, List, length, take, true, Ok, Err};
ghost use Rattle.std.specs.Str.{chars, encode_utf8_all, all_scalars, IsUtf8};
ghost use Rattle.udf_text.specs.declared.fault.TextFault.TheVariants.{BadLength, BadCompression, OddLength, LoneSurrogate};
ghost use Rattle.udf_text.specs.Compressed.{encoding, decoding, Spells, IsBytes, HasOtherCompression, HasHalfUnit, HasLoneSurrogate, dstring, dstring_decoding, told_length};
ghost use Rattle.udf_text.specs.Front.{IsLongestFront};

/// The characters of a text are the text.
pub fn text_law()
    ensures text { (text : List ℕ) → IsUtf8 text → encode_utf8_all (chars text) ≡ text }
    ensures characters { (characters : List ℕ) → all_scalars characters ≡ true
        → chars (encode_utf8_all characters) ≡ characters }
{}

/// Bytes decode to the one name that they spell, and else to the fault that they have.
pub fn decoding_law()
    ensures name { (bytes characters : List ℕ) → IsBytes bytes
        → ((decoding bytes ≡ Ok characters) ↔ Spells bytes characters) }
    ensures one { (bytes characters others : List ℕ) → Spells bytes characters → Spells bytes others
        → characters ≡ others }
    ensures bad_compression { (bytes : List ℕ)
        → ((decoding bytes ≡ Err BadCompression) ↔ HasOtherCompression bytes) }
    ensures odd_length { (bytes : List ℕ) → ((decoding bytes ≡ Err OddLength) ↔ HasHalfUnit bytes) }
    ensures lone_surrogate { (bytes : List ℕ) → IsBytes bytes
        → ((decoding bytes ≡ Err LoneSurrogate) ↔ HasLoneSurrogate bytes) }
{}

/// A dstring decodes as so many of its bytes as the last one tells, or has a bad length.
pub fn dstring_law()
    ensures bad_length { (field : List ℕ)
        → ((dstring_decoding field ≡ Err BadLength) ↔ (length field ≤ told_length field)) }
    ensures name { (field : List ℕ) → told_length field < length field
        → dstring_decoding field ≡ decoding (take (told_length field) field) }
{}

/// What a name encodes to decodes to the name, as bytes alone and in a dstring that it fills.
pub fn encoding_law()
    ensures name { (characters : List ℕ) → all_scalars characters ≡ true
        → decoding (encoding characters) ≡ Ok characters }
    ensures field { (size : ℕ) (characters : List ℕ) → all_scalars characters ≡ true
        → length (encoding characters) < size → dstring_decoding (dstring size characters) ≡ Ok characters }
    ensures fills { (size : ℕ) (characters : List ℕ) → length (encoding characters) < size
        → length (dstring size characters) ≡ size }
{}

/// There is one longest beginning.
pub fn front_law()
    ensures one { (characters front other : List ℕ) (bytes : ℕ) → IsLongestFront characters bytes front
        → IsLongestFront characters bytes other → front ≡ other }
{}
