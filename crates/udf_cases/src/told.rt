//! What a run printed and left, in words.

use crate::log::{open, over};
use crate::run::Run;
use crate::trial::Trial;
use std::alloc::AllocError;
use udf_outside::{MemBench, Role};

// The printed lines, with `; ` behind each.
fn add_lines(text: &mut String, printed: &[u8]) -> Result<(), AllocError> {
    for byte in printed {
        if *byte == b'\n' {
            text.push_str("; ")?;
        } else {
            text.push(*byte as char)?;
        }
    }
    Ok(())
}

// What the image is now.
fn image_named(trial: &Trial<'_>, begun: &MemBench, run: &Run) -> &'static str {
    if run.left.same(&trial.wanted.volume, Role::Image) {
        "whole"
    } else if run.left.same(&trial.wanted.image, Role::Image) {
        "as wanted"
    } else if run.left.same(begun, Role::Image) {
        "as it was"
    } else {
        "changed"
    }
}

// What a side file is that held these bytes before and holds those after a run, whose log would leave it so.
fn side_named(before: &[u8], after: &[u8], log: &mut Vec<u8>) -> &'static str {
    if after == log.as_slice() {
        return "the closed log";
    }
    open(log);
    if after == log.as_slice() {
        "the open log"
    } else if after == before {
        "as it was"
    } else {
        "changed"
    }
}

// What the side file is now, and its length.
fn add_side(
    trial: &Trial<'_>,
    text: &mut String,
    begun: &MemBench,
    run: &Run,
) -> Result<(), AllocError> {
    let before = begun.copy(trial.alloc, Role::Side)?;
    let after = run.left.copy(trial.alloc, Role::Side)?;
    let mut log = over(trial.alloc, &trial.wanted.log, &before)?;
    let side = side_named(&before, &after, &mut log);
    let bytes = after.len();
    write!(text, ", side file {side} of {bytes} bytes")
}

// Whether both files hold what they held, and neither was written.
fn left_all(begun: &MemBench, run: &Run) -> bool {
    run.writes() == 0 && run.left.same(begun, Role::Image) && run.left.same(begun, Role::Side)
}

// What the image is now.
fn add_image(
    trial: &Trial<'_>,
    text: &mut String,
    begun: &MemBench,
    run: &Run,
) -> Result<(), AllocError> {
    let (image, writes) = (image_named(trial, begun, run), run.image_writes);
    write!(text, ", image {image} after {writes} writes")
}

// The state of both files, where one was written.
fn add_files(
    trial: &Trial<'_>,
    text: &mut String,
    begun: &MemBench,
    run: &Run,
) -> Result<(), AllocError> {
    if run.calls == 0 {
        return text.push_str(", nothing asked");
    }
    if left_all(begun, run) {
        return text.push_str(", nothing written");
    }
    add_image(trial, text, begun, run)?;
    add_side(trial, text, begun, run)
}

// The status, and why the words were no command.
fn add_status(text: &mut String, run: &Run) -> Result<(), AllocError> {
    let status = run.status;
    match run.cause {
        Some(cause) => write!(text, "status {status} ({cause:?})"),
        None => write!(text, "status {status}"),
    }
}

/// Appends a run in words.
pub(crate) fn add_run(
    trial: &Trial<'_>,
    text: &mut String,
    begun: &MemBench,
    run: &Run,
) -> Result<(), AllocError> {
    add_lines(text, &run.printed)?;
    add_status(text, run)?;
    add_files(trial, text, begun, run)
}
