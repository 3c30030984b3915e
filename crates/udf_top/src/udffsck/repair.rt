//! A repair: `udffsck -p`.
ghost use Rattle.std.specs.Prelude.{◌≡◌, ◌≤◌, ℕ, List, Some, None, IfSome, true};
ghost use Rattle.udf_outside.specs.Stops.{pair_of, IsSynced};
ghost use Rattle.udf_outside.specs.Causes.{Rose};
ghost use Rattle.udf_outside.specs.declared.bench.Access.TheVariants.{Write};
ghost use Rattle.udf_model.specs.Size.{is_size};
ghost use Rattle.udf_words.specs.declared.cause.Cause.{Cause};
ghost use Rattle.udf_top.specs.Texts.{text_of};
ghost use Rattle.udf_top.specs.Repairing.{refused_log, refused_size, repair_of, repair_said};
ghost use Rattle.udf_top.specs.Headline.{Repairs};
ghost use Rattle.udf_top.specs.Attaching.{WasAsked};
ghost use Rattle.udf_top.specs.Steps.{Says};
ghost use Rattle.udf_top.specs.Endings.{HasEnded};

use crate::Outcome;
use crate::say::{say, say_replayed};
use crate::udffsck::mend::mend;
use crate::udffsck::settle::{attach_files, settle};
use crate::udffsck::sized::size_for;
use std::alloc::Global;
use udf_outside::{Bench, Sink};
use udf_redo::RedoStop;
use udf_volume::LayerStop;

// Tells why a side file is no log of the image.
fn end_unsettled<O: Sink>(alloc: Global, side: &str, stop: RedoStop, out: &mut O) -> Outcome
    ensures ended { HasEnded result → result ≡ refused_log stop }
    ensures said { (before : List ℕ) → O.told out.old ≡ Some before → Says (O.told out.new) before (text_of side.now (refused_log stop)) result }
    ensures device { result ≡ Outcome.DeviceFault → stop ≡ RedoStop.Fault }
    ensures told { stop ≡ RedoStop.Fault → result ≡ Outcome.DeviceFault }
    ensures out { result ≡ Outcome.OutFault → Rose (O.faults out.old) (O.faults out.new) }
    ensures later { O.faults out.old ≤ O.faults out.new }
{
    match stop {
        RedoStop::NotALog => say(alloc, side, Outcome::NotALog, out),
        RedoStop::BadLog => say(alloc, side, Outcome::BadLog, out),
        RedoStop::WrongImage(clash) => say(alloc, side, Outcome::WrongImage(clash), out),
        RedoStop::Fault => Outcome::DeviceFault,
        RedoStop::Memory => Outcome::Memory,
    }
}

// Tells why an image has no block size.
fn end_unsized<O: Sink>(alloc: Global, medium: &str, stop: LayerStop, out: &mut O) -> Outcome
    ensures ended { HasEnded result → result ≡ refused_size stop }
    ensures said { (before : List ℕ) → O.told out.old ≡ Some before → Says (O.told out.new) before (text_of medium.now (refused_size stop)) result }
    ensures device { result ≡ Outcome.DeviceFault → stop ≡ LayerStop.Fault }
    ensures told { stop ≡ LayerStop.Fault → result ≡ Outcome.DeviceFault }
    ensures out { result ≡ Outcome.OutFault → Rose (O.faults out.old) (O.faults out.new) }
    ensures later { O.faults out.old ≤ O.faults out.new }
{
    match stop {
        LayerStop::Missing(missing) => say(alloc, medium, Outcome::Refused(missing), out),
        LayerStop::Fault => Outcome::DeviceFault,
        LayerStop::Memory => Outcome::Memory,
    }
}

/// Repairs an image under the log in a side file, which has another name. A block size that is not given is found in the image
/// once an open log was replayed.
#[tactic(auto, using(udf_model::proofs::Sizes::large))]
pub(crate) fn repair<B: Bench, O: Sink>(
    alloc: Global,
    given: Option<u32>,
    medium: &str,
    side: &str,
    bench: &mut B,
    out: &mut O,
) -> Outcome
    requires image { (B.files bench.old).image.asked ≡ None }
    requires side { (B.files bench.old).side.asked ≡ None }
    requires given { IfSome given (λ size. is_size size ≡ true) }
    requires synced { B.tells → IsSynced (B.held bench.old) }
    ensures outcome { B.tells → HasEnded result → result ≡ repair_of given (pair_of (B.held bench.old)) }
    ensures said { B.tells → (before : List ℕ) → O.told out.old ≡ Some before
        → Says (O.told out.new) before (repair_said given medium.now side.now (pair_of (B.held bench.old))) result }
    ensures repairs { B.tells → Repairs given (B.held bench.old) (B.held bench.new) result }
    ensures device { result ≡ Outcome.DeviceFault → Rose (B.faults bench.old) (B.faults bench.new) }
    ensures out { result ≡ Outcome.OutFault → Rose (O.faults out.old) (O.faults out.new) }
    ensures usage { (cause : Cause) → result ≡ Outcome.Usage cause → ⊥ }
    ensures other { result ≡ Outcome.SameFile → ⊥ }
    ensures asked { (B.files bench.new).image.asked ≡ Some Write }
    ensures named { IfSome (B.files bench.new).image.name (λ told. told ≡ medium.now) }
    ensures beside { WasAsked side.now (B.files bench.old) (B.files bench.new) }
{
    let Ok(lengths) = attach_files(medium, side, bench) else {
        return Outcome::DeviceFault;
    };
    let replayed = match settle(alloc, bench, lengths) {
        Ok(replayed) => replayed,
        Err(stop) => return end_unsettled(alloc, side, stop, out),
    };
    if let Err(stop) = say_replayed(alloc, medium, replayed, out) {
        return stop.outcome();
    }
    bench.known();
    match size_for(alloc, bench, lengths.image, given) {
        Ok(size) => mend(alloc, size, medium, lengths.image, replayed, bench, out),
        Err(stop) => end_unsized(alloc, medium, stop, out),
    }
}
