//! Why a call on the log ended without its answer.
ghost use Rattle.std.specs.Prelude.{◌≡◌};
ghost use Rattle.udf_redo.specs.declared.stop.RedoStop.TheVariants.{Fault, Memory};

use std::alloc::{AllocError, AllocFailed};
use udf_outside::Failed;

/// In what an image differs from the one that a log was made of: the number of its blocks, or else the digest (SHA-256) of
/// the sealed sectors.
#[derive(Clone, Copy, Debug, PartialEq, Eq)]
pub enum Clash {
    Blocks { log: u32, image: u64 },
    Seal { log: [u8; 32], image: [u8; 32] },
}

/// Why a call on the log ended without its answer.
#[derive(Clone, Copy, Debug, PartialEq, Eq)]
pub enum RedoStop {
    /// The side file has more than nine bytes and not the name of a log.
    NotALog,
    /// The side file has the name and an open gate, but no log in the grammar.
    BadLog,
    /// The log is one of another image.
    WrongImage(Clash),
    /// A call on the bench failed.
    Fault,
    Memory,
}

impl From<Failed> for RedoStop {
    ghost from_gives = { λ _ e. e ≡ Fault };

    fn from(_: Failed) -> Self {
        RedoStop::Fault
    }
}

impl From<AllocError> for RedoStop {
    ghost from_gives = { λ _ e. e ≡ Memory };

    fn from(_: AllocError) -> Self {
        RedoStop::Memory
    }
}
