//! Lines are put.
ghost use Rattle.std.specs.Prelude.{◌≡◌, ◌⊎◌, ◌≤◌, ◌++◌, ℕ, List, Some, OnOk, IsErrOf};
ghost use Rattle.udf_outside.specs.Causes.{Rose};
ghost use Rattle.udf_top.specs.declared.say.PutStop.TheVariants as stop;
ghost use Rattle.udf_top.specs.Texts.{text_of, replayed_text, mend_text};
ghost use Rattle.udf_top.specs.Endings.{HasEnded};
ghost use Rattle.udf_top.specs.Udffsck.{HoldsFront};

use crate::text::{mend_lines, replayed_line, text};
use crate::{Findings, Outcome};
use std::alloc::{AllocError, Global};
use udf_outside::{Failed, Sink};

/// Why lines were not put.
#[derive(Clone, Copy, Debug, PartialEq, Eq)]
pub(crate) enum PutStop {
    Fault,
    Memory,
}

impl From<Failed> for PutStop {
    ghost from_gives = { λ _ e. e ≡ stop.Fault };

    fn from(_: Failed) -> Self {
        PutStop::Fault
    }
}

impl From<AllocError> for PutStop {
    ghost from_gives = { λ _ e. e ≡ stop.Memory };

    fn from(_: AllocError) -> Self {
        PutStop::Memory
    }
}

impl PutStop {
    /// The outcome of a run that ends so.
    pub(crate) fn outcome(self) -> Outcome
        ensures fault { result ≡ Outcome.OutFault → self ≡ stop.Fault }
        ensures told { self ≡ stop.Fault → result ≡ Outcome.OutFault }
        ensures failed { HasEnded result → ⊥ }
        ensures device { result ≡ Outcome.DeviceFault → ⊥ }
    {
        match self {
            PutStop::Fault => Outcome::OutFault,
            PutStop::Memory => Outcome::Memory,
        }
    }
}

/// Puts what is printed at the end of a run, and answers how it then ends. The text tells of the file.
#[tactic(auto, using(crate::proofs::Outcomes::nothing_of))]
pub(crate) fn say<O: Sink>(alloc: Global, file: &str, outcome: Outcome, out: &mut O) -> Outcome
    ensures kept { HasEnded result → result ≡ outcome }
    ensures whole { (before : List ℕ) → O.told out.old ≡ Some before → HasEnded result
        → O.told out.new ≡ Some (before ++ text_of file.now outcome) }
    ensures front { (before : List ℕ) → O.told out.old ≡ Some before
        → HoldsFront (O.told out.new) before (text_of file.now outcome) }
    ensures device { result ≡ Outcome.DeviceFault → outcome ≡ Outcome.DeviceFault }
    ensures out { result ≡ Outcome.OutFault → (outcome ≡ Outcome.OutFault) ⊎ Rose (O.faults out.old) (O.faults out.new) }
    ensures later { O.faults out.old ≤ O.faults out.new }
{
    let Ok(lines) = text(alloc, file, &outcome) else {
        return Outcome::Memory;
    };
    match out.put(&lines) {
        Ok(()) => outcome,
        Err(_) => Outcome::OutFault,
    }
}

/// Puts the line of a replay of so many blocks, where there was one.
#[tactic(auto, using(crate::proofs::Outcomes::nothing_of, crate::proofs::Outcomes::unreplayed))]
pub(crate) fn say_replayed<O: Sink>(
    alloc: Global,
    medium: &str,
    replayed: u32,
    out: &mut O,
) -> Result<(), PutStop>
    ensures whole { (before : List ℕ) → O.told out.old ≡ Some before
        → OnOk result (O.told out.new ≡ Some (before ++ replayed_text medium.now replayed)) }
    ensures front { (before : List ℕ) → O.told out.old ≡ Some before
        → HoldsFront (O.told out.new) before (replayed_text medium.now replayed) }
    ensures fault { IsErrOf result stop.Fault → Rose (O.faults out.old) (O.faults out.new) }
    ensures later { O.faults out.old ≤ O.faults out.new }
{
    if replayed == 0 {
        return Ok(());
    }
    let line = replayed_line(alloc, medium, replayed)?;
    out.put(&line)?;
    Ok(())
}

/// Puts what a repair prints before it writes so many blocks.
#[tactic(auto, using(crate::proofs::Outcomes::nothing_of))]
pub(crate) fn say_mend<O: Sink>(
    alloc: Global,
    medium: &str,
    findings: &Findings,
    written: u32,
    out: &mut O,
) -> Result<(), PutStop>
    ensures whole { (before : List ℕ) → O.told out.old ≡ Some before
        → OnOk result (O.told out.new ≡ Some (before ++ mend_text medium.now findings.now written)) }
    ensures front { (before : List ℕ) → O.told out.old ≡ Some before
        → HoldsFront (O.told out.new) before (mend_text medium.now findings.now written) }
    ensures fault { IsErrOf result stop.Fault → Rose (O.faults out.old) (O.faults out.new) }
    ensures later { O.faults out.old ≤ O.faults out.new }
{
    let lines = mend_lines(alloc, medium, findings, written)?;
    out.put(&lines)?;
    Ok(())
}
