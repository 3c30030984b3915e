//! A run, and the runs that follow it.
ghost use Rattle.std.specs.Prelude.{◌≡◌, IfOk};
ghost use Rattle.udf_outside.specs.Memory.{script_in};

use crate::run::{Run, calls_of, run_over};
use crate::told::add_run;
use crate::trial::Trial;
use crate::trouble::{Cut, Trouble};
use std::alloc::AllocError;
use udf_outside::MemBench;

// Whether another run follows: something was repaired, or failed.
fn goes_on(run: &Run) -> bool {
    run.status == 1 || run.status == 8
}

// A run with this trouble, told behind the text.
fn add_round(
    trial: &Trial<'_>,
    text: &mut String,
    begun: &MemBench,
    trouble: &Trouble,
) -> Result<Run, AllocError>
    requires { (script_in begun.now).calls ≡ 0 }
    ensures { IfOk result (λ run. (script_in run.left).calls ≡ 0) }
{
    let run = run_over(trial, begun, trouble)?;
    add_run(trial, text, begun, &run)?;
    Ok(run)
}

// A run without trouble, told behind another.
fn add_next(trial: &Trial<'_>, text: &mut String, begun: &MemBench) -> Result<Run, AllocError>
    requires { (script_in begun.now).calls ≡ 0 }
    ensures { IfOk result (λ run. (script_in run.left).calls ≡ 0) }
{
    text.push_str(" / ")?;
    add_round(trial, text, begun, &Trouble::NONE)
}

// The second run, and the third where it follows.
fn add_later(trial: &Trial<'_>, text: &mut String, begun: &MemBench) -> Result<(), AllocError>
    requires { (script_in begun.now).calls ≡ 0 }
{
    let second = add_next(trial, text, begun)?;
    if goes_on(&second) {
        add_next(trial, text, &second.left)?;
    }
    Ok(())
}

/// Tells a run with this trouble, and those that follow.
pub(crate) fn rounds_told(
    trial: &Trial<'_>,
    start: &MemBench,
    trouble: &Trouble,
) -> Result<String, AllocError>
    requires { (script_in start.now).calls ≡ 0 }
{
    let mut text = String::new(trial.alloc);
    let first = add_round(trial, &mut text, start, trouble)?;
    if goes_on(&first) {
        add_later(trial, &mut text, &first.left)?;
    }
    Ok(text)
}

// Whether a run that is stopped before the bytes of this call has begun the write of a cut.
fn has_begun(trial: &Trial<'_>, start: &MemBench, call: u64, cut: Cut) -> Result<bool, AllocError>
    requires { (script_in start.now).calls ≡ 0 }
{
    let stopped = run_over(trial, start, &Trouble::stopping(call, 0, cut.fill))?;
    Ok(stopped.writes_of(cut.role) >= cut.write)
}

// The number of the call that is the write of a cut, or 0.
fn call_of(trial: &Trial<'_>, start: &MemBench, cut: Cut) -> Result<u64, AllocError>
    requires { (script_in start.now).calls ≡ 0 }
{
    for call in 1..=calls_of(trial, start)? {
        if has_begun(trial, start, call, cut)? {
            return Ok(call);
        }
    }
    Ok(0)
}

/// Tells a run that is stopped inside a write, and those that follow.
pub(crate) fn stopped_told(
    trial: &Trial<'_>,
    start: &MemBench,
    cut: Cut,
) -> Result<String, AllocError>
    requires { (script_in start.now).calls ≡ 0 }
{
    let call = call_of(trial, start, cut)?;
    let stop = Trouble::stopping(call, cut.bytes, cut.fill);
    rounds_told(trial, start, &stop)
}
