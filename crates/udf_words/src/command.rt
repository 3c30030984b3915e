//! The command of `udffsck`.
ghost use Rattle.std.specs.Prelude.{◌≡◌, true, map, string_bytes, IfOk, IfSome, option_map, Some, [], codes, unwrap_or};
ghost use Rattle.udf_model.specs.Size.{is_size};
ghost use Rattle.clap.specs.Words.{app_of, matches_of};
ghost use Rattle.udf_words.specs.Arguments.{value_in};
ghost use Rattle.udf_words.specs.Words.{udffsck_app, size_in, size_by, command_by, command_in};
ghost use Rattle.udf_words.specs.Asked.{Reads, ReadsOrStops, command_seen, rows_seen, side_seen};

use crate::arguments::{flag, flag_given, found, option, place, short_option, tool, value};
use crate::{Cause, WordsStop};
use clap::ArgMatches;
use std::alloc::{AllocError, Global};

/// What follows the name of a medium in that of its side file, where the words name none.
const REDO: &str = ".redo";

/// The work that a run is asked for.
#[derive(Clone, Copy, Debug, PartialEq, Eq)]
pub enum Work<'a> {
    Check,
    /// A repair, with the side file where the words name one.
    Repair(Option<&'a str>),
}

/// What a run is asked to do: the work, the block size in bytes where it is given, and the medium.
#[derive(Clone, Copy, Debug, PartialEq, Eq)]
pub struct Command<'a> {
    pub work: Work<'a>,
    pub size: Option<u32>,
    pub medium: &'a str,
}

#[tactic(auto, unfolding(crate::specs::Words::udffsck_app))]
fn udffsck<'a>(alloc: Global) -> Result<clap::Command<'a>, AllocError>
    ensures { IfOk result (λ command. app_of command ≡ udffsck_app) }
{
    tool(alloc, "udffsck")
        .arg(flag(alloc, "check", 'c'))?
        .arg(flag(alloc, "repair", 'p'))?
        .arg(short_option(alloc, "blocksize", 'B'))?
        .arg(option(alloc, "redo"))?
        .arg(place(alloc, "medium", true))
}

#[tactic(auto, unfolding(crate::specs::Words::size_in, udf_model::specs::Size::is_size))]
fn size_of(word: &str) -> Option<u32>
    ensures read { result ≡ size_in word.now }
    ensures size { IfSome result (λ size. is_size size ≡ true) }
{
    match word {
        "512" => Some(512),
        "1024" => Some(1024),
        "2048" => Some(2048),
        "4096" => Some(4096),
        _ => None,
    }
}

// The block size that is given, if any.
fn given_size(matches: &ArgMatches<'_>) -> Result<Option<u32>, Cause>
    ensures read { Reads (λ size. size) (size_by (option_map size_in (value_in (codes "blocksize") (rows_seen matches.now)))) result }
    ensures size { IfOk result (λ given. IfSome given (λ size. is_size size ≡ true)) }
{
    match value(matches, "blocksize") {
        None => Ok(None),
        Some(text) => match size_of(text) {
            None => Err(Cause::Value),
            Some(size) => Ok(Some(size)),
        },
    }
}

// What is asked for by what `clap` found.
#[tactic(auto, unfolding(crate::specs::Words::command_by))]
fn command_from<'a>(matches: &ArgMatches<'a>) -> Result<Command<'a>, Cause>
    ensures read { Reads command_seen (command_by (rows_seen matches.now)) result }
    ensures size { IfOk result (λ command. IfSome command.size (λ size. is_size size ≡ true)) }
    ensures medium { IfOk result (λ command. command.medium.now ≡ unwrap_or (value_in (codes "medium") (rows_seen matches.now)) []) }
{
    let size = given_size(matches)?;
    let work = match (flag_given(matches, "check"), flag_given(matches, "repair")) {
        (true, false) => Work::Check,
        (false, true) => Work::Repair(value(matches, "redo")),
        _ => return Err(Cause::Mode),
    };
    let medium = value(matches, "medium").unwrap_or("");
    Ok(Command { work, size, medium })
}

/// What the words ask for, or why they are no command.
#[tactic(auto, unfolding(crate::specs::Words::command_in))]
pub fn command_of<'a>(alloc: Global, words: &'a [String]) -> Result<Command<'a>, WordsStop>
    ensures read { ReadsOrStops command_seen (command_in (map string_bytes words.now)) result }
    ensures size { IfOk result (λ command. IfSome command.size (λ size. is_size size ≡ true)) }
    ensures medium { IfOk result (λ command. value_in (codes "medium") (matches_of udffsck_app (map string_bytes words.now))
        ≡ Some command.medium.now) }
{
    let matches = found(udffsck(alloc)?, words)?;
    match command_from(&matches) {
        Ok(command) => Ok(command),
        Err(cause) => Err(WordsStop::Usage(cause)),
    }
}

/// The name of the side file of a repair: the one that is named, or that of the medium followed by `.redo`.
pub fn side_name(alloc: Global, medium: &str, named: Option<&str>) -> Result<String, AllocError>
    ensures { IfOk result (λ name. Some (string_bytes name) ≡ side_seen (Work.Repair named.entry) medium.now) }
{
    match named {
        Some(name) => String::from_str(alloc, name),
        None => {
            let mut name = String::from_str(alloc, medium)?;
            name.push_str(REDO)?;
            Ok(name)
        }
    }
}
