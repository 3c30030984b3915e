// Why bytes are no name, or a name has no bytes.
ghost use Rattle.std.specs.Prelude.{◌≡◌};
ghost use Rattle.udf_text.specs.declared.fault.TextFault.TheVariants.{Memory};

use std::alloc::AllocError;
use thiserror::Error;

/// What is wrong with the bytes of a name or with its length.
#[derive(Clone, Copy, Debug, Drop, PartialEq, Eq, Error)]
pub enum TextFault {
    /// The last byte of a dstring is not below its length (OSTA UDF 2.1.3).
    #[error("the length of the dstring does not fit its field")]
    BadLength,
    /// The compression ID is neither 8 nor 16 (OSTA UDF 2.1.1).
    #[error("the compression ID is neither 8 nor 16")]
    BadCompression,
    /// A 16-bit name ends in half a unit.
    #[error("the 16-bit name has an odd number of bytes")]
    OddLength,
    /// A 16-bit name is not UTF-16.
    #[error("a surrogate stands alone")]
    LoneSurrogate,
    /// The encoded name does not fit.
    #[error("the encoded name is too long")]
    TooLong,
    /// Memory ran out.
    #[error("out of memory")]
    Memory,
}

impl From<AllocError> for TextFault {
    ghost from_gives = { λ _ fault. fault ≡ Memory };

    fn from(_lack: AllocError) -> TextFault {
        TextFault::Memory
    }
}
