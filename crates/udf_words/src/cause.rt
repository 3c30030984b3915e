//! Why words are no command.
ghost use Rattle.std.specs.Prelude.{◌≡◌};
ghost use Rattle.udf_words.specs.declared.cause.WordsStop.TheVariants.{Memory};

use std::alloc::AllocError;

/// Why words are no command.
#[derive(Clone, Copy, Debug, PartialEq, Eq)]
pub enum Cause {
    /// The command line is not read: a word is missing, not known or one too many.
    Words,
    /// It is read, and a value is not in its set.
    Value,
    /// Both or neither of `-c` and `-p` are given.
    Mode,
}

/// Why words were not read.
#[derive(Clone, Copy, Debug, PartialEq, Eq)]
pub enum WordsStop {
    /// The words are no command.
    Usage(Cause),
    /// Memory was wanting.
    Memory,
}

impl From<AllocError> for WordsStop {
    ghost from_gives = { λ _ stop. stop ≡ Memory };

    fn from(_error: AllocError) -> WordsStop {
        WordsStop::Memory
    }
}
