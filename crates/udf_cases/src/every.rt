//! Runs that fail or stop at each of their calls in turn. What fails is told at once; else the number of writes that were cut.
ghost use Rattle.std.specs.Prelude.{◌≡◌};
ghost use Rattle.udf_outside.specs.Memory.{script_in};

use crate::run::{calls_of, run_over};
use crate::trial::Trial;
use crate::trouble::Trouble;
use std::alloc::AllocError;
use udf_outside::{MemBench, Role};

/// The status of a fault.
const FAULT: u8 = 8;

/// After how many bytes a write is cut: none, one, about half and all of one of the log's, or of a block of 512 bytes. A write
/// that is shorter is whole.
const CUTS: [u64; 9] = [0, 1, 2, 4, 9, 26, 52, 256, 512];

/// What came of stops at each call.
#[derive(Clone, Copy)]
struct Stops {
    /// The writes that were begun at the last of them.
    begun: u64,
    /// The call after which the next runs do not end in the wanted image.
    bad: Option<u64>,
}

// Whether a run finds nothing to do.
fn rests(trial: &Trial<'_>, start: &MemBench) -> Result<bool, AllocError>
    requires { (script_in start.now).calls ≡ 0 }
{
    let run = run_over(trial, start, &Trouble::NONE)?;
    Ok(run.status == 0 && run.writes() == 0)
}

// Whether the next run repairs what is left, and the one after it finds nothing to do.
fn ends_wanted(trial: &Trial<'_>, left: &MemBench) -> Result<bool, AllocError>
    requires { (script_in left.now).calls ≡ 0 }
{
    let next = run_over(trial, left, &Trouble::NONE)?;
    if next.status > 1 || !next.left.same(&trial.wanted.image, Role::Image) {
        return Ok(false);
    }
    rests(trial, &next.left)
}

// Whether a run with this trouble ends with a fault, and the next ones in the wanted image.
fn recovers(trial: &Trial<'_>, start: &MemBench, trouble: &Trouble) -> Result<bool, AllocError>
    requires { (script_in start.now).calls ≡ 0 }
{
    let troubled = run_over(trial, start, trouble)?;
    if troubled.status != FAULT {
        return Ok(false);
    }
    ends_wanted(trial, &troubled.left)
}

// The first call whose failure the next runs do not mend.
fn bad_failure(trial: &Trial<'_>, start: &MemBench) -> Result<Option<u64>, AllocError>
    requires { (script_in start.now).calls ≡ 0 }
{
    for call in 1..=calls_of(trial, start)? {
        if !recovers(trial, start, &Trouble::failing(call))? {
            return Ok(Some(call));
        }
    }
    Ok(None)
}

/// Each call fails in turn.
pub(crate) fn each_fault_told(trial: &Trial<'_>, start: &MemBench) -> Result<String, AllocError>
    requires { (script_in start.now).calls ≡ 0 }
{
    match bad_failure(trial, start)? {
        Some(call) => format!(in trial.alloc;
            "call {call} fails, and the next runs do not end in the wanted image"
        ),
        None => String::from_str(
            trial.alloc,
            "whichever call fails, the next run ends in the wanted image",
        ),
    }
}

// How many writes a run has begun that is stopped before the bytes of a call.
fn writes_until(trial: &Trial<'_>, start: &MemBench, call: u64, fill: u8) -> Result<u64, AllocError>
    requires { (script_in start.now).calls ≡ 0 }
{
    Ok(run_over(trial, start, &Trouble::stopping(call, 0, fill))?.writes())
}

// How many of the cuts are tried at a call: each where it begins a write. Before the first write a stop leaves the files as
// they were, and is tried at the first call alone.
fn cuts_at(call: u64, before: u64, begun: u64) -> usize {
    if begun > before {
        CUTS.len()
    } else if begun > 0 || call == 1 {
        1
    } else {
        0
    }
}

// Whether the next runs end in the wanted image after the first so many cuts of a call.
fn recovers_from_cuts(
    trial: &Trial<'_>,
    start: &MemBench,
    call: u64,
    cuts: usize,
    fill: u8,
) -> Result<bool, AllocError>
    requires { (script_in start.now).calls ≡ 0 }
{
    for bytes in CUTS.iter().take(cuts) {
        let trouble = Trouble::stopping(call, *bytes, fill);
        if !recovers(trial, start, &trouble)? {
            return Ok(false);
        }
    }
    Ok(true)
}

fn each_stop(trial: &Trial<'_>, start: &MemBench, fill: u8) -> Result<Stops, AllocError>
    requires { (script_in start.now).calls ≡ 0 }
{
    let mut begun = 0;
    for call in 1..=calls_of(trial, start)? {
        let before = begun;
        begun = writes_until(trial, start, call, fill)?;
        let cuts = cuts_at(call, before, begun);
        if !recovers_from_cuts(trial, start, call, cuts, fill)? {
            return Ok(Stops {
                begun,
                bad: Some(call),
            });
        }
    }
    Ok(Stops { begun, bad: None })
}

/// The run is stopped at each call in turn, a write after each of some numbers of bytes.
pub(crate) fn each_stop_told(
    trial: &Trial<'_>,
    start: &MemBench,
    fill: u8,
) -> Result<String, AllocError>
    requires { (script_in start.now).calls ≡ 0 }
{
    let Stops { begun, bad } = each_stop(trial, start, fill)?;
    match bad {
        Some(call) => format!(in trial.alloc;
            "stopped at call {call}, and the next runs do not end in the wanted image"
        ),
        None => format!(in trial.alloc;
            "{begun} writes, and wherever it stops the next run ends in the wanted image"
        ),
    }
}

// Whether a run with this stop ends with a fault, and the next ones in the wanted image where it began a write.
fn recovers_from_stop(
    trial: &Trial<'_>,
    start: &MemBench,
    stop: &Trouble,
) -> Result<bool, AllocError>
    requires { (script_in start.now).calls ≡ 0 }
{
    let stopped = run_over(trial, start, stop)?;
    if stopped.status != FAULT || stopped.writes() == 0 {
        return Ok(stopped.status == FAULT);
    }
    ends_wanted(trial, &stopped.left)
}

// Whether the run over what a stop left is stopped too, at each of its calls, and mended then.
fn recovers_from_each_stop(
    trial: &Trial<'_>,
    left: &MemBench,
    bytes: u64,
    fill: u8,
) -> Result<bool, AllocError>
    requires { (script_in left.now).calls ≡ 0 }
{
    for call in 1..=calls_of(trial, left)? {
        let stop = Trouble::stopping(call, bytes, fill);
        if !recovers_from_stop(trial, left, &stop)? {
            return Ok(false);
        }
    }
    Ok(true)
}

// What comes of a stop at a call, and of another one at each call of the next run where a write was begun.
fn stop_and_another(
    trial: &Trial<'_>,
    start: &MemBench,
    call: u64,
    bytes: u64,
    fill: u8,
) -> Result<Stops, AllocError>
    requires { (script_in start.now).calls ≡ 0 }
{
    let stopped = run_over(trial, start, &Trouble::stopping(call, bytes, fill))?;
    let begun = stopped.writes();
    let is_good = begun == 0 || recovers_from_each_stop(trial, &stopped.left, bytes, fill)?;
    Ok(Stops {
        begun,
        bad: if is_good { None } else { Some(call) },
    })
}

fn each_pair_of_stops(
    trial: &Trial<'_>,
    start: &MemBench,
    bytes: u64,
    fill: u8,
) -> Result<Stops, AllocError>
    requires { (script_in start.now).calls ≡ 0 }
{
    let mut last = Stops {
        begun: 0,
        bad: None,
    };
    for call in 1..=calls_of(trial, start)? {
        last = stop_and_another(trial, start, call, bytes, fill)?;
        if last.bad.is_some() {
            return Ok(last);
        }
    }
    Ok(last)
}

/// The run is stopped at each call from its first write on, and the next run at each of its own.
pub(crate) fn each_pair_of_stops_told(
    trial: &Trial<'_>,
    start: &MemBench,
    bytes: u64,
    fill: u8,
) -> Result<String, AllocError>
    requires { (script_in start.now).calls ≡ 0 }
{
    let Stops { begun, bad } = each_pair_of_stops(trial, start, bytes, fill)?;
    match bad {
        Some(call) => format!(in trial.alloc;
            "stopped twice, at call {call} at first, and the next runs do not end in the wanted image"
        ),
        None => format!(in trial.alloc;
            "{begun} writes, and wherever it stops twice the next run ends in the wanted image"
        ),
    }
}
