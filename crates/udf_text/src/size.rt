// How many bytes a name encodes to.
ghost use Rattle.std.specs.Prelude.{◌≡◌, ℕ, ◌+◌, ◌<◌, ◌^◌, List, [], ◌∷◌, ◌++◌, length};
ghost use Rattle.std.specs.Str.{chars};
ghost use Rattle.udf_text.specs.Compressed.{encoding};
ghost use Rattle.udf_text.specs.Size.{size_of};

/// The highest character of an 8-bit name.
const HIGHEST_NARROW: char = '\u{FF}';

/// What the length of an encoded name depends on.
#[derive(Clone, Copy)]
pub struct Size {
    /// How many 16-bit units the characters are.
    pub units: usize,
    /// Whether a character is above U+00FF.
    pub wide: bool,
}

impl Size {
    pub fn empty() -> Size
        ensures { result ≡ size_of [] }
    {
        Size {
            units: 0,
            wide: false,
        }
    }

    /// The size with one more character.
    pub fn with(self, c: char) -> Size
        requires { self.units + 2 < 2 ^ 64 }
        ensures { (before : List ℕ) → self ≡ size_of before → result ≡ size_of (before ++ c ∷ []) }
    {
        Size {
            units: self.units + c.len_utf16(),
            wide: self.wide || c > HIGHEST_NARROW,
        }
    }

    /// The length of the encoded name in bytes.
    pub fn bytes(self) -> usize
        requires { self.units < 2 ^ 63 }
        ensures { (characters : List ℕ) → self ≡ size_of characters
            → result ≡ length (encoding characters) }
    {
        if self.units == 0 {
            return 0;
        }
        if self.wide {
            return 1 + 2 * self.units;
        }
        1 + self.units
    }
}

/// The size of a text's characters.
pub fn measure(text: &str) -> Size
    ensures size { result ≡ size_of (chars text.now) }
    ensures bound { result.units < 2 ^ 63 }
{
    let mut size = Size::empty();
    for c in text.chars() {
        size = size.with(c);
    }
    size
}
