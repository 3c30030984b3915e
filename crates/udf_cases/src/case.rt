//! A case.
ghost use Rattle.std.specs.Prelude.{◌≡◌, ◌<◌, IfOk};
ghost use Rattle.udf_outside.specs.Memory.{script_in};

use crate::damage::hurt_by;
use crate::every::{each_fault_told, each_pair_of_stops_told, each_stop_told};
use crate::log::add_log;
use crate::rounds::{rounds_told, stopped_told};
use crate::run::bench_of;
use crate::side::side_of;
use crate::trial::{Trial, Wanted};
use crate::trouble::{cut_of, failure_of};
use crate::volume::{ground_of, size_of, volume_named};
use crate::words::{byte, number, part, small, words_of};
use sha2::{Digest, Sha256};
use std::alloc::{AllocError, Global};
use udf_field::Addr;
use udf_outside::{Access, Bench, MemBench, Role};
use udf_top::{Finding, Place, report_line};
use udf_volume::{LayerStop, Volume, open_volume};

/// The columns of a line.
#[derive(Clone, Copy)]
struct Case<'a> {
    words: &'a str,
    image: &'a str,
    log: &'a str,
    side: &'a str,
    trouble: &'a str,
    mended: &'a str,
}

fn case_of(line: &str) -> Case<'_> {
    Case {
        words: part(line, '|', 1),
        image: part(line, '|', 2),
        log: part(line, '|', 3),
        side: part(line, '|', 4),
        trouble: part(line, '|', 5),
        mended: part(line, '|', 6),
    }
}

fn block_size(case: Case<'_>) -> u32
    ensures { 0 < result }
{
    size_of(part(case.image, ' ', 0))
}

// The volume of a case with these damages.
fn hurt_volume(alloc: Global, case: Case<'_>, damages: &str) -> Result<Vec<u8>, AllocError> {
    let volume = part(case.image, ' ', 0);
    let mut image = volume_named(alloc, volume)?;
    hurt_by(&mut image, ground_of(volume), damages);
    Ok(image)
}

// A bench whose image is the volume with these damages, beside an empty side file.
fn hurt_bench(alloc: Global, case: Case<'_>, damages: &str) -> Result<MemBench, AllocError> {
    let image = hurt_volume(alloc, case, damages)?;
    Ok(bench_of(alloc, image, Vec::new(alloc)))
}

// The side file at the start.
fn side_at_start(alloc: Global, case: Case<'_>) -> Result<Vec<u8>, AllocError> {
    let mended = hurt_volume(alloc, case, case.mended)?;
    side_of(alloc, &mended, block_size(case), case.log, case.side)
}

// The bench at the start: the damaged image, or so many zeros, and the side file.
fn start_of(alloc: Global, case: Case<'_>) -> Result<MemBench, AllocError>
    ensures { IfOk result (λ bench. (script_in bench).calls ≡ 0) }
{
    let volume = part(case.image, ' ', 0);
    if part(volume, ':', 0) == "zeros" {
        return Ok(MemBench::sparse(alloc, number(volume, 1)));
    }
    let image = hurt_volume(alloc, case, case.image)?;
    let side = side_at_start(alloc, case)?;
    Ok(bench_of(alloc, image, side))
}

// The closed log of a repair.
fn log_at_end(alloc: Global, case: Case<'_>) -> Result<Vec<u8>, AllocError> {
    let image = hurt_volume(alloc, case, case.mended)?;
    let mut log = Vec::new(alloc);
    add_log(&mut log, &image, block_size(case), case.log)?;
    Ok(log)
}

// What a repair is to leave.
fn wanted_of(alloc: Global, case: Case<'_>) -> Result<Wanted, AllocError> {
    Ok(Wanted {
        log: log_at_end(alloc, case)?,
        volume: hurt_bench(alloc, case, "")?,
        image: hurt_bench(alloc, case, case.mended)?,
    })
}

fn digest_told(alloc: Global, case: Case<'_>) -> Result<String, AllocError> {
    let image = hurt_volume(alloc, case, case.image)?;
    let mut text = String::new(alloc);
    for byte in Sha256::digest(&image) {
        write!(text, "{byte:02x}")?;
    }
    Ok(text)
}

// The volume of an image whose blocks have 512 bytes.
fn volume_in(alloc: Global, bench: &mut MemBench) -> Result<Volume, LayerStop> {
    bench.attach(Role::Image, "a.img", Access::Read)?;
    let length = bench.length(Role::Image)?;
    open_volume(alloc, bench, 512, length)
}

// What the volume of the image states, or why there is none.
fn volume_told(alloc: Global, case: Case<'_>) -> Result<String, AllocError> {
    let mut bench = hurt_bench(alloc, case, case.image)?;
    let volume = volume_in(alloc, &mut bench);
    format!(in alloc; "{volume:?}")
}

// The finding whose rule, partition, block and two values stand between colons.
fn finding_of(words: &str) -> Finding {
    let address = Addr {
        part: small(words, 1).min(65535) as u16,
        block: small(words, 2),
    };
    Finding {
        rule: byte(words, 0),
        place: Place::At(address),
        first: number(words, 3),
        second: number(words, 4),
    }
}

fn finding_told(alloc: Global, words: &str) -> Result<String, AllocError> {
    let mut line = [0u8; 64];
    let end = report_line(&finding_of(words), &mut line);
    let mut text = String::new(alloc);
    for byte in line.iter().take(end) {
        text.push(if *byte == b'\n' { ';' } else { *byte as char })?;
    }
    Ok(text)
}

// Runs the tool in the way that the trouble asks for.
fn trial_told(trial: &Trial<'_>, start: &MemBench, trouble: &str) -> Result<String, AllocError>
    requires { (script_in start.now).calls ≡ 0 }
{
    match part(trouble, ':', 0) {
        "faults" => each_fault_told(trial, start),
        "stops" => each_stop_told(trial, start, byte(trouble, 1)),
        "twice" => {
            let (bytes, fill) = (number(trouble, 1), byte(trouble, 2));
            each_pair_of_stops_told(trial, start, bytes, fill)
        }
        "stop" => stopped_told(trial, start, cut_of(trouble)),
        _ => rounds_told(trial, start, &failure_of(trouble)),
    }
}

fn tool_told(alloc: Global, case: Case<'_>) -> Result<String, AllocError> {
    let words = words_of(alloc, case.words)?;
    let start = start_of(alloc, case)?;
    let wanted = wanted_of(alloc, case)?;
    let trial = Trial {
        alloc,
        words: &words,
        wanted: &wanted,
    };
    trial_told(&trial, &start, case.trouble)
}

// What came of a case.
fn outcome_told(alloc: Global, case: Case<'_>) -> Result<String, AllocError> {
    match part(case.words, ' ', 0) {
        "digest" => digest_told(alloc, case),
        "volume" => volume_told(alloc, case),
        "finding" => finding_told(alloc, case.image),
        _ => tool_told(alloc, case),
    }
}

/// What came of the case of a line, behind its name.
pub(crate) fn told(alloc: Global, line: &str) -> Result<String, AllocError> {
    let name = part(line, '|', 0);
    let told = outcome_told(alloc, case_of(line))?;
    format!(in alloc; "{name}: {told}")
}
