// The flags of an ICB tag.
ghost use Rattle.std.specs.Prelude.{⊤, [], ◌∷◌, codes};

use bitflags::{Flag, Flags, bitflag_items};

/// The flags of an entry's ICB tag (ECMA-167 4/14.6.8). The three lowest bits are the kind of its allocation descriptors, which
/// `Entry::kind` tells; they and the bits that the standard reserves are kept as they are read.
#[derive(Clone, Copy, Debug, PartialEq, Eq)]
pub struct IcbFlags(u16);

bitflag_items! {
    impl IcbFlags: u16 {
        /// The FIDs of the directory are sorted.
        const SORTED = 8;
        /// The blocks of the file are not to be moved.
        const NON_RELOCATABLE = 16;
        /// The file is to be archived.
        const ARCHIVE = 32;
        /// A program in the file runs as its owner.
        const SET_USER = 64;
        /// A program in the file runs as its group.
        const SET_GROUP = 128;
        /// The sticky bit.
        const STICKY = 256;
        /// The blocks of the file stand one after another.
        const CONTIGUOUS = 512;
        /// The file belongs to a system.
        const SYSTEM = 1024;
        /// The content is transformed.
        const TRANSFORMED = 2048;
        /// The directory may have several FIDs of one name.
        const MULTI_VERSION = 4096;
        /// The file is a named stream.
        const STREAM = 8192;
    }
}

impl Flags for IcbFlags {
    type Bits = u16;

    ghost exact = { ⊤ };

    ghost table = { (codes "SORTED", 8) ∷ (codes "NON_RELOCATABLE", 16) ∷ (codes "ARCHIVE", 32) ∷ (codes "SET_USER", 64)
        ∷ (codes "SET_GROUP", 128) ∷ (codes "STICKY", 256) ∷ (codes "CONTIGUOUS", 512) ∷ (codes "SYSTEM", 1024)
        ∷ (codes "TRANSFORMED", 2048) ∷ (codes "MULTI_VERSION", 4096) ∷ (codes "STREAM", 8192) ∷ [] };

    ghost set_of = { λ flags. flags.0 };

    fn flags<'a>() -> &'a [Flag<IcbFlags>] {
        IcbFlags::FLAGS
    }

    fn bits(&self) -> u16 {
        self.0
    }

    fn from_bits_retain(bits: u16) -> IcbFlags {
        IcbFlags(bits)
    }
}
