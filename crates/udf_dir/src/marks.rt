// The characteristics of a FID.
ghost use Rattle.std.specs.Prelude.{⊤, [], ◌∷◌, codes};

use bitflags::{Flag, Flags, bitflag_items};

/// The file characteristics of a FID (ECMA-167 4/14.4.3). The bits that the standard reserves are kept as they are read.
#[derive(Clone, Copy, Debug, PartialEq, Eq)]
pub struct Marks(u8);

bitflag_items! {
    impl Marks: u8 {
        /// The file need not be told to a user.
        const HIDDEN = 1;
        /// The file is a directory.
        const DIRECTORY = 2;
        /// The name is deleted.
        const DELETED = 4;
        /// The FID names the parent of the directory.
        const PARENT = 8;
    }
}

impl Flags for Marks {
    type Bits = u8;

    ghost exact = { ⊤ };

    ghost table = { (codes "HIDDEN", 1) ∷ (codes "DIRECTORY", 2) ∷ (codes "DELETED", 4) ∷ (codes "PARENT", 8) ∷ [] };

    ghost set_of = { λ marks. marks.0 };

    fn flags<'a>() -> &'a [Flag<Marks>] {
        Marks::FLAGS
    }

    fn bits(&self) -> u8 {
        self.0
    }

    fn from_bits_retain(bits: u8) -> Marks {
        Marks(bits)
    }
}
