//! Where lines go.
ghost use Rattle.std.specs.Prelude.{◌≡◌, ℕ, List, Option, OnOk};
ghost use Rattle.udf_outside.specs.Causes.{HasCause};
ghost use Rattle.udf_outside.specs.Written.{Appends};

use crate::Failed;

/// A place for the lines that a tool prints.
pub trait Sink {
    /// What it was given so far, where that is told.
    ghost told: { Self → Option (List ℕ) };

    /// How often a put failed. It never falls, and rises in a put that failed alone.
    ghost faults: { Self → ℕ };

    /// Appends the bytes.
    fn put(&mut self, bytes: &[u8]) -> Result<(), Failed>
        ensures written { Appends (told self.old) (told self.new) bytes.now result }
        ensures cause { HasCause (faults self.old) (faults self.new) result }
        ensures calm { OnOk result (faults self.new ≡ faults self.old) };
}
