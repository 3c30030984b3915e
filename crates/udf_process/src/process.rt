//! `udffsck` as a process.
ghost use Rattle.std.specs.Prelude.{List, ℕ, IfOk, map, string_bytes};
ghost use Rattle.udf_process.specs.Ends.{EndsLike};

use crate::Ended;
use std::{env, io};
use udf_outside::{FileBench, StdSink, hold_standard_streams};
use udf_top::{Outcome, run_udffsck};

// The words after the program's name. Words that cannot be had as a whole count as wrong ones.
fn words_of(rt: &HostRuntime) -> Vec<String> {
    let mut words = Vec::new(rt.alloc());
    let Ok(given) = env::args(rt) else {
        return words;
    };
    for word in given.skip(1) {
        if words.push(word).is_err() {
            return Vec::new(rt.alloc());
        }
    }
    words
}

// A run with these words over real files. Without its standard streams it opens none.
fn ended(rt: &HostRuntime, words: &[String]) -> io::Result<Ended>
    ensures { IfOk result (λ ended. EndsLike (map string_bytes words.now) ended) }
{
    if hold_standard_streams(rt).is_err() {
        return Ok(Ended::with(&Outcome::DeviceFault));
    }
    let mut bench = FileBench::new(rt.clone()?);
    let mut out = StdSink::new(io::writer(rt));
    let outcome = run_udffsck(rt.alloc(), words, &mut bench, &mut out);
    Ok(Ended::with(&outcome))
}

/// Runs `udffsck` with the words of the process over real files and the standard output.
pub fn udffsck(rt: &HostRuntime) -> io::Result<Ended>
    ensures { IfOk result (λ ended. (words : List (List ℕ)) × EndsLike words ended) }
{
    ended(rt, &words_of(rt))
}
