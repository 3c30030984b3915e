//! How a run of a tool ends, and the status of a program.
ghost use Rattle.std.specs.Prelude.{◌≡◌};
ghost use Rattle.udf_top.specs.Status.{status_of};

use crate::Findings;
use udf_redo::Clash;
use udf_volume::Missing;
use udf_words::Cause;

/// How a run ends.
#[derive(Debug, Drop)]
pub enum Outcome {
    /// No rule is broken, and no log was open.
    Clean,
    /// A repair ended otherwise: so many recorded blocks of an open log were replayed, and so many blocks of the image
    /// were repaired.
    Repaired { replayed: u32, written: u32 },
    /// Rules are broken.
    Broken(Findings),
    /// The image is no volume that the tool takes.
    Refused(Missing),
    /// The words are no command.
    Usage(Cause),
    /// The side file of a repair is named as the medium is.
    SameFile,
    /// The side file has more than nine bytes and not the name of a log.
    NotALog,
    /// The side file is an open log outside the grammar.
    BadLog,
    /// The side file is an open log of another image.
    WrongImage(Clash),
    /// A call on the image failed.
    DeviceFault,
    /// A line could not be put.
    OutFault,
    /// Memory was wanting.
    Memory,
}

/// The status with which a program ends: 0 clean, 1 repaired, 4 broken or refused, 8 a fault, 12 a side file that is no log
/// of the image, 16 wrong words, 64 want of memory.
pub fn status(outcome: &Outcome) -> u8
    ensures { result ≡ status_of outcome.now }
{
    match outcome {
        Outcome::Clean => 0,
        Outcome::Repaired { .. } => 1,
        Outcome::Broken(_) => 4,
        Outcome::Refused(_) => 4,
        Outcome::Usage(_) => 16,
        Outcome::SameFile => 16,
        Outcome::NotALog => 12,
        Outcome::BadLog => 12,
        Outcome::WrongImage(_) => 12,
        Outcome::DeviceFault => 8,
        Outcome::OutFault => 8,
        Outcome::Memory => 64,
    }
}
