//! `udffsck`, the checker and repairer.
ghost use Rattle.std.specs.Prelude.{◌≡◌, ◌++◌, ℕ, List, true, false, Some, None, Ok, Err, map, string_bytes, IfSome};
ghost use Rattle.udf_outside.specs.Stops.{pair_of, IsSynced};
ghost use Rattle.udf_outside.specs.Causes.{Rose};
ghost use Rattle.udf_words.specs.declared.cause.Cause.{Cause};
ghost use Rattle.udf_layer.specs.declared.missing.Missing.{Missing};
ghost use Rattle.udf_model.specs.Size.{is_size};
ghost use Rattle.udf_top.specs.Words.{Repair, repair_in, beside, checks, names_one_by, names_one_file};
ghost use Rattle.udf_words.specs.Words.{Command, command_in};
ghost use Rattle.udf_words.specs.Asked.{side_seen};
ghost use Rattle.udf_top.specs.Texts.{text_of};
ghost use Rattle.udf_top.specs.Attaching.{AsksFor, AsksToCheck};
ghost use Rattle.udf_top.specs.Steps.{Says};
ghost use Rattle.udf_top.specs.Endings.{HasEnded};
ghost use Rattle.udf_top.specs.Headline.{Repairs};
ghost use Rattle.udf_top.specs.Udffsck.{outcome_beside, outcome_of, said_beside, output_of, text_by, HoldsFront, IsOfCheck};

use crate::Outcome;
use crate::say::say;
use check::check;
use repair::repair;
use std::alloc::Global;
use udf_outside::{Bench, Sink};
use udf_words::{WordsStop, Work, command_of, side_name};

pub(crate) mod check;
pub(crate) mod inspect;
pub(crate) mod mend;
pub(crate) mod repair;
pub(crate) mod settle;
pub(crate) mod sized;

// A repair beside the side file that the words name.
fn repair_beside<B: Bench, O: Sink>(
    alloc: Global,
    given: Option<u32>,
    medium: &str,
    named: Option<&str>,
    bench: &mut B,
    out: &mut O,
) -> Outcome
    requires image { (B.files bench.old).image.asked ≡ None }
    requires side { (B.files bench.old).side.asked ≡ None }
    requires given { IfSome given (λ size. is_size size ≡ true) }
    requires synced { B.tells → IsSynced (B.held bench.old) }
    ensures outcome { B.tells → HasEnded result
        → result ≡ outcome_beside (side_seen (Work.Repair named.entry) medium.now) given medium.now (pair_of (B.held bench.old)) }
    ensures said { B.tells → (before : List ℕ) → O.told out.old ≡ Some before → Says (O.told out.new) before
        (said_beside (side_seen (Work.Repair named.entry) medium.now) given medium.now (pair_of (B.held bench.old))) result }
    ensures unsaid { beside (side_seen (Work.Repair named.entry) medium.now) given medium.now ≡ None → (before : List ℕ)
        → O.told out.old ≡ Some before → HasEnded result → O.told out.new ≡ Some (before ++ text_of medium.now result) }
    ensures device { result ≡ Outcome.DeviceFault → Rose (B.faults bench.old) (B.faults bench.new) }
    ensures out { result ≡ Outcome.OutFault → Rose (O.faults out.old) (O.faults out.new) }
    ensures usage { (cause : Cause) → result ≡ Outcome.Usage cause → ⊥ }
    ensures same_file { result ≡ Outcome.SameFile → names_one_by (side_seen (Work.Repair named.entry) medium.now) medium.now ≡ true }
    ensures same_names { names_one_by (side_seen (Work.Repair named.entry) medium.now) medium.now ≡ true → HasEnded result → result ≡ Outcome.SameFile }
    ensures asked { (repair : Repair) → beside (side_seen (Work.Repair named.entry) medium.now) given medium.now ≡ Some repair
        → AsksFor repair result (B.files bench.old) (B.files bench.new) }
    ensures unasked { beside (side_seen (Work.Repair named.entry) medium.now) given medium.now ≡ None → B.files bench.new ≡ B.files bench.old }
    ensures held { beside (side_seen (Work.Repair named.entry) medium.now) given medium.now ≡ None → B.held bench.new ≡ B.held bench.old }
    ensures repairs { B.tells → (repair : Repair) → beside (side_seen (Work.Repair named.entry) medium.now) given medium.now ≡ Some repair
        → Repairs repair.size (B.held bench.old) (B.held bench.new) result }
{
    let Ok(name) = side_name(alloc, medium, named) else {
        return Outcome::Memory;
    };
    let side = name.as_str();
    if side == medium {
        return say(alloc, medium, Outcome::SameFile, out);
    }
    repair(alloc, given, medium, side, bench, out)
}

/// Checks an image, `udffsck -c [-B SIZE] MEDIUM`, or repairs it under the log in a side file,
/// `udffsck -p [-B SIZE] [--redo FILE] MEDIUM`. `words` are those after the program's name. Every line goes to the sink.
pub fn run_udffsck<B: Bench, O: Sink>(
    alloc: Global,
    words: &[String],
    bench: &mut B,
    out: &mut O,
) -> Outcome
    requires image { (B.files bench.old).image.asked ≡ None }
    requires side { (B.files bench.old).side.asked ≡ None }
    requires synced { B.tells → IsSynced (B.held bench.old) }

    // Where the bench tells its bytes, the outcome is the stated one, unless a fault or want of memory came.
    ensures outcome { B.tells → HasEnded result → result ≡ outcome_of (map string_bytes words.now) (pair_of (B.held bench.old)) }

    // Where the sink tells its bytes, exactly the stated text was put, or after a fault or want of memory a front of it. Of a
    // run without repair it is the text of its outcome, over every bench.
    ensures output { B.tells → (before : List ℕ) → O.told out.old ≡ Some before → HasEnded result
        → O.told out.new ≡ Some (before ++ output_of (map string_bytes words.now) (pair_of (B.held bench.old))) }
    ensures front { B.tells → (before : List ℕ) → O.told out.old ≡ Some before
        → HoldsFront (O.told out.new) before (output_of (map string_bytes words.now) (pair_of (B.held bench.old))) }
    ensures said { repair_in (map string_bytes words.now) ≡ None → (before : List ℕ) → O.told out.old ≡ Some before → HasEnded result
        → O.told out.new ≡ Some (before ++ text_by (command_in (map string_bytes words.now)) result) }

    // Words that are no command are refused, over every bench, and no other words are.
    ensures usage { (cause : Cause) → result ≡ Outcome.Usage cause → command_in (map string_bytes words.now) ≡ Err cause }
    ensures words { (cause : Cause) → command_in (map string_bytes words.now) ≡ Err cause → HasEnded result → result ≡ Outcome.Usage cause }

    // A repair whose names are equal is refused, over every bench, and nothing else is refused so.
    ensures same_file { result ≡ Outcome.SameFile → names_one_file (command_in (map string_bytes words.now)) ≡ true }
    ensures same_names { names_one_file (command_in (map string_bytes words.now)) ≡ true → HasEnded result → result ≡ Outcome.SameFile }

    // A check refuses what the volume, its file set or its entries lack, over every bench, and not write protection.
    ensures refused { (missing : Missing) → result ≡ Outcome.Refused missing → checks (command_in (map string_bytes words.now)) ≡ true
        → IsOfCheck missing }

    // Each fault has a cause.
    ensures device { result ≡ Outcome.DeviceFault → Rose (B.faults bench.old) (B.faults bench.new) }
    ensures out { result ≡ Outcome.OutFault → Rose (O.faults out.old) (O.faults out.new) }

    // A check asks for the image alone, for reading. A repair asks for the image, for writing, and then for the side file, to
    // be made where it is missing. Each is asked for by its name, or nothing for want of memory, and other words ask for nothing.
    ensures checked { (command : Command) → command_in (map string_bytes words.now) ≡ Ok command → command.side ≡ None
        → AsksToCheck command.medium result (B.files bench.old) (B.files bench.new) }
    ensures repaired { (repair : Repair) → repair_in (map string_bytes words.now) ≡ Some repair
        → AsksFor repair result (B.files bench.old) (B.files bench.new) }
    ensures unasked { repair_in (map string_bytes words.now) ≡ None → checks (command_in (map string_bytes words.now)) ≡ false
        → B.files bench.new ≡ B.files bench.old }

    // A run without repair writes nothing: both files hold what they held, and no stop leaves anything else.
    ensures held { repair_in (map string_bytes words.now) ≡ None → B.held bench.new ≡ B.held bench.old }

    // A repair ends in the one image of its files, at whatever moments it is stopped and begun again.
    ensures repairs { B.tells → (repair : Repair) → repair_in (map string_bytes words.now) ≡ Some repair
        → Repairs repair.size (B.held bench.old) (B.held bench.new) result }
{
    match command_of(alloc, words) {
        Err(WordsStop::Usage(cause)) => say(alloc, "", Outcome::Usage(cause), out),
        Err(WordsStop::Memory) => Outcome::Memory,
        Ok(command) => match command.work {
            Work::Check => {
                let outcome = check(alloc, command.size, command.medium, bench);
                say(alloc, command.medium, outcome, out)
            }
            Work::Repair(named) => repair_beside(
                alloc,
                command.size,
                command.medium,
                named,
                bench,
                out,
            ),
        },
    }
}
