//! A run of a tool over a bench in memory.
ghost use Rattle.std.specs.Prelude.{◌≡◌, None, IfOk};
ghost use Rattle.udf_outside.specs.Memory.{files_in, held_in, script_in};
ghost use Rattle.udf_outside.specs.Stops.{IsSynced};

use crate::trial::Trial;
use crate::trouble::Trouble;
use std::alloc::{AllocError, Global};
use udf_outside::{MemBench, MemSink, Role};
use udf_top::{Cause, Outcome, run_udffsck, status};

/// A run that ended: what it printed, its status, why its words were no command, what it asked of the bench, and what a stop at
/// its end leaves.
#[derive(Drop)]
pub(crate) struct Run {
    pub printed: Vec<u8>,
    pub status: u8,
    pub cause: Option<Cause>,
    pub calls: u64,
    pub image_writes: u64,
    pub side_writes: u64,
    pub left: MemBench,
}

/// A bench with these contents.
pub(crate) fn bench_of(alloc: Global, image: Vec<u8>, side: Vec<u8>) -> MemBench
    ensures { (script_in result).calls ≡ 0 }
{
    MemBench::new(alloc, image, side, Vec::new(alloc), None)
}

// The numbers of the calls or puts that fail.
fn numbers(alloc: Global, number: Option<u64>) -> Result<Vec<u64>, AllocError> {
    let mut list = Vec::new(alloc);
    if let Some(number) = number {
        list.push(number)?;
    }
    Ok(list)
}

// A copy of a bench of which no call was made, with the calls of this trouble.
#[tactic(auto, using(udf_outside::proofs::Moments::begun_synced))]
fn troubled(alloc: Global, begun: &MemBench, trouble: &Trouble) -> Result<MemBench, AllocError>
    requires begun { (script_in begun.now).calls ≡ 0 }
    ensures image { IfOk result (λ bench. (files_in bench).image.asked ≡ None) }
    ensures side { IfOk result (λ bench. (files_in bench).side.asked ≡ None) }
    ensures synced { IfOk result (λ bench. IsSynced (held_in bench)) }
{
    let fail = numbers(alloc, trouble.fail)?;
    Ok(begun.again(alloc)?.armed(fail, trouble.stop))
}

// Runs `udffsck` with these words. What its contract says of the outcome is left to the compared texts.
fn ran(alloc: Global, words: &[String], bench: &mut MemBench, out: &mut MemSink) -> Outcome
    requires image { (files_in bench.old).image.asked ≡ None }
    requires side { (files_in bench.old).side.asked ≡ None }
    requires synced { IsSynced (held_in bench.old) }
{
    run_udffsck(alloc, words, bench, out)
}

// Why the words were no command.
fn cause_of(outcome: &Outcome) -> Option<Cause> {
    match outcome {
        Outcome::Usage(cause) => Some(*cause),
        _ => None,
    }
}

// What came of a run, and what a stop then leaves, filled with a byte.
fn ended(
    alloc: Global,
    bench: MemBench,
    out: &MemSink,
    outcome: &Outcome,
    fill: u8,
) -> Result<Run, AllocError>
    ensures left { IfOk result (λ run. (script_in run.left).calls ≡ 0) }
{
    Ok(Run {
        printed: out.bytes().to_vec(alloc)?,
        status: status(outcome),
        cause: cause_of(outcome),
        calls: bench.calls(),
        image_writes: bench.writes(Role::Image),
        side_writes: bench.writes(Role::Side),
        left: bench.restarted(fill)?,
    })
}

/// Runs `udffsck` over a copy of a bench of which no call was made.
pub(crate) fn run_over(
    trial: &Trial<'_>,
    begun: &MemBench,
    trouble: &Trouble,
) -> Result<Run, AllocError>
    requires begun { (script_in begun.now).calls ≡ 0 }
    ensures left { IfOk result (λ run. (script_in run.left).calls ≡ 0) }
{
    let alloc = trial.alloc;
    let mut bench = troubled(alloc, begun, trouble)?;
    let mut out = MemSink::new(alloc, numbers(alloc, trouble.put)?);
    let outcome = ran(alloc, trial.words, &mut bench, &mut out);
    ended(alloc, bench, &out, &outcome, trouble.fill)
}

/// The number of calls of a run without trouble.
pub(crate) fn calls_of(trial: &Trial<'_>, begun: &MemBench) -> Result<u64, AllocError>
    requires { (script_in begun.now).calls ≡ 0 }
{
    Ok(run_over(trial, begun, &Trouble::NONE)?.calls)
}

impl Run {
    /// The writes of both files.
    pub(crate) fn writes(&self) -> u64 {
        self.image_writes.saturating_add(self.side_writes)
    }

    /// The writes of a file.
    pub(crate) fn writes_of(&self, role: Role) -> u64 {
        match role {
            Role::Image => self.image_writes,
            Role::Side => self.side_writes,
        }
    }
}
