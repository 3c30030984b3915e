//! How a process ends.
ghost use Rattle.std.specs.Prelude.{◌≡◌};
ghost use Rattle.std.specs.Process.{exit_status};
ghost use Rattle.udf_top.specs.Status.{status_of};

use std::io::Eprint;
use std::marker::Model;
use std::process::{ExitCode, Termination};
use udf_top::{Outcome, status};

/// How a process ends: with the status of a run's outcome. A clause sees it as that status. Only a run makes one, and it is no
/// value that may be dropped: what `main` returns ends with it.
pub struct Ended {
    status: u8,
}

impl Model for Ended {
    ghost use Rattle.std.specs.Prelude.{ℕ};

    ghost Value = { ℕ };

    ghost view = { λ ended. ended.status };
}

impl Ended {
    /// The end of a run with this outcome.
    pub(crate) fn with(outcome: &Outcome) -> Ended
        ensures { result ≡ status_of outcome.now }
    {
        Ended {
            status: status(outcome),
        }
    }
}

impl Termination for Ended {
    fn report<R: Eprint>(self, _rt: &R) -> ExitCode
        ensures { exit_status result ≡ self }
    {
        let Ended { status } = self;
        ExitCode::from(status)
    }
}
