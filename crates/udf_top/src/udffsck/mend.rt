//! The second half of a repair: what breaks the rules is found and told, and the difference is written through the log.
ghost use Rattle.std.specs.Prelude.{◌≡◌, ◌≤◌, ◌*◌, ◌/◌, ℕ, List, [], length, Some, OnOk, IsErrOf, true};
ghost use Rattle.udf_outside.specs.Files.{IsWritable};
ghost use Rattle.udf_outside.specs.Stops.{bytes_of, IsSynced, LeavesOnly};
ghost use Rattle.udf_outside.specs.Causes.{Rose};
ghost use Rattle.udf_outside.specs.declared.bench.Role.TheVariants.{Image, Side};
ghost use Rattle.udf_volume_model.specs.Opened.{plan_of};
ghost use Rattle.udf_volume_model.specs.Plans.{IsRewrite};
ghost use Rattle.udf_volume.specs.Opened.{IsBounded};
ghost use Rattle.udf_blocks.specs.PlanFor.{sealed_stated, IsPlanFor};
ghost use Rattle.udf_model.specs.Size.{is_size};
ghost use Rattle.udf_redo.specs.Sealing.{sealed_area};
ghost use Rattle.udf_redo.specs.Settled.{IsFree};
ghost use Rattle.udf_redo.specs.Faults.{HasFault, OnlyFaultsOrMemory};
ghost use Rattle.udf_redo.specs.declared.stop.RedoStop.TheVariants.{Memory};
ghost use Rattle.udf_words.specs.declared.cause.Cause.{Cause};
ghost use Rattle.udf_top.specs.Texts.{text_of};
ghost use Rattle.udf_top.specs.Repairing.{mend_said, repaired_as};
ghost use Rattle.udf_top.specs.Endings.{HasOpenedNoGate, HasEnded};
ghost use Rattle.udf_top.specs.Inspecting.{IsInspected, IsInspectedAt};
ghost use Rattle.udf_top.specs.Steps.{IsMending, IsMended, Mends, Says};
ghost use Rattle.udf_top.specs.Attaching.{KeepsAsked};

use crate::Outcome;
use crate::say::{say, say_mend};
use crate::udffsck::inspect::{Inspected, inspect};
use std::alloc::Global;
use udf_outside::{Bench, Sink};
use udf_plan::Plan;
use udf_redo::{RedoStop, SealedRun, apply, close_gate, open_gate, write_log};
use udf_repair_plan::plan_repair;
use udf_volume::{LayerStop, Volume, WorkStop};

// The blocks of the kept descriptors, which no mend writes.
fn kept_descriptors(volume: &Volume) -> SealedRun
    ensures { sealed_area result ≡ sealed_stated volume.now }
{
    SealedRun {
        first: volume.kept_extent().start,
        count: volume.count,
    }
}

// Writes a plan, which is not empty, through the log, which seals the kept descriptors. Once the gate is open it takes no memory.
fn write_plan<B: Bench>(
    alloc: Global,
    bench: &mut B,
    plan: &Plan,
    volume: &Volume,
) -> Result<(), RedoStop>
    requires image { IsWritable Image (B.files bench.old) }
    requires side { IsWritable Side (B.files bench.old) }
    requires size { is_size volume.now.size ≡ true }
    requires bounded { IsBounded volume.now.size ((B.files bench.old).image.size / volume.now.size) volume.now }
    requires some { 1 ≤ length plan.now.blocks }
    requires lawful { IsPlanFor volume.now plan.now }
    requires free { B.tells → IsFree (bytes_of Side (B.held bench.old)) }
    requires synced { B.tells → IsSynced (B.held bench.old) }
    ensures moments { B.tells → (after : List ℕ) → IsRewrite volume.now.size (bytes_of Image (B.held bench.old)) after
        → plan.now.blocks ≡ plan_of volume.now.size (bytes_of Image (B.held bench.old)) after
        → LeavesOnly (B.held bench.old) (B.held bench.new) (IsMending volume.now.size (bytes_of Image (B.held bench.old)) after) }
    ensures done { B.tells → (after : List ℕ) → IsRewrite volume.now.size (bytes_of Image (B.held bench.old)) after
        → plan.now.blocks ≡ plan_of volume.now.size (bytes_of Image (B.held bench.old)) after
        → OnOk result (IsMended after (B.held bench.new)) }
    ensures memory { IsErrOf result Memory → B.held bench.new ≡ B.held bench.old }
    ensures only_faults { OnlyFaultsOrMemory result }
    ensures files { KeepsAsked (B.files bench.old) (B.files bench.new) }
    ensures cause { HasFault (B.faults bench.old) (B.faults bench.new) result }
{
    write_log(alloc, bench, plan, volume.blocks, kept_descriptors(volume))?;
    open_gate(bench)?;
    apply(bench, plan, volume.size)?;
    close_gate(bench)
}

fn by_work(stop: WorkStop) -> Outcome
    ensures fault { result ≡ Outcome.DeviceFault → stop ≡ WorkStop.Fault }
    ensures told { stop ≡ WorkStop.Fault → result ≡ Outcome.DeviceFault }
    ensures failed { HasEnded result → ⊥ }
    ensures out { result ≡ Outcome.OutFault → ⊥ }
{
    match stop {
        WorkStop::Fault => Outcome::DeviceFault,
        WorkStop::Memory => Outcome::Memory,
    }
}

// Writes a plan, where it is not empty, after so many blocks were replayed.
fn write<B: Bench>(
    alloc: Global,
    replayed: u32,
    plan: &Plan,
    volume: &Volume,
    bench: &mut B,
) -> Outcome
    requires image { IsWritable Image (B.files bench.old) }
    requires side { IsWritable Side (B.files bench.old) }
    requires size { is_size volume.now.size ≡ true }
    requires bounded { IsBounded volume.now.size ((B.files bench.old).image.size / volume.now.size) volume.now }
    requires lawful { IsPlanFor volume.now plan.now }
    requires free { B.tells → IsFree (bytes_of Side (B.held bench.old)) }
    requires synced { B.tells → IsSynced (B.held bench.old) }
    ensures written { HasEnded result → result ≡ Outcome.Repaired replayed (length plan.now.blocks) }
    ensures moments { B.tells → (after : List ℕ) → IsRewrite volume.now.size (bytes_of Image (B.held bench.old)) after
        → plan.now.blocks ≡ plan_of volume.now.size (bytes_of Image (B.held bench.old)) after
        → LeavesOnly (B.held bench.old) (B.held bench.new) (IsMending volume.now.size (bytes_of Image (B.held bench.old)) after) }
    ensures done { B.tells → (after : List ℕ) → IsRewrite volume.now.size (bytes_of Image (B.held bench.old)) after
        → plan.now.blocks ≡ plan_of volume.now.size (bytes_of Image (B.held bench.old)) after
        → HasEnded result → IsMended after (B.held bench.new) }
    ensures unopened { HasOpenedNoGate result → B.held bench.new ≡ B.held bench.old }
    ensures files { KeepsAsked (B.files bench.old) (B.files bench.new) }
    ensures device { result ≡ Outcome.DeviceFault → Rose (B.faults bench.old) (B.faults bench.new) }
    ensures out { result ≡ Outcome.OutFault → ⊥ }
    ensures later { B.faults bench.old ≤ B.faults bench.new }
{
    let written = plan.len();
    if written == 0 {
        return Outcome::Repaired { replayed, written };
    }
    match write_plan(alloc, bench, plan, volume) {
        Ok(()) => Outcome::Repaired { replayed, written },
        Err(RedoStop::Memory) => Outcome::Memory,
        Err(_) => Outcome::DeviceFault,
    }
}

// Tells what is found, and writes the difference.
#[tactic(auto, using(udf_model::proofs::Sizes::large))]
fn mend_broken<B: Bench, O: Sink>(
    alloc: Global,
    medium: &str,
    replayed: u32,
    found: Inspected,
    bench: &mut B,
    out: &mut O,
) -> Outcome
    requires image { IsWritable Image (B.files bench.old) }
    requires side { IsWritable Side (B.files bench.old) }
    requires size { is_size found.files.volume.size ≡ true }
    requires at { IsInspectedAt found.files.volume.size (B.files bench.old) found }
    requires inspected { B.tells → IsInspected found.files.volume.size (bytes_of Image (B.held bench.old)) found }
    requires broken { 1 ≤ length found.findings }
    requires free { B.tells → IsFree (bytes_of Side (B.held bench.old)) }
    requires synced { B.tells → IsSynced (B.held bench.old) }
    ensures mends { B.tells → Mends found.files.volume.size replayed (B.held bench.old) (B.held bench.new) result }
    ensures said { B.tells → (before : List ℕ) → O.told out.old ≡ Some before
        → Says (O.told out.new) before (mend_said found.files.volume.size medium.now (bytes_of Image (B.held bench.old))) result }
    ensures device { result ≡ Outcome.DeviceFault → Rose (B.faults bench.old) (B.faults bench.new) }
    ensures out { result ≡ Outcome.OutFault → Rose (O.faults out.old) (O.faults out.new) }
    ensures usage { (cause : Cause) → result ≡ Outcome.Usage cause → ⊥ }
    ensures other { result ≡ Outcome.SameFile → ⊥ }
    ensures files { KeepsAsked (B.files bench.old) (B.files bench.new) }
    ensures later { B.faults bench.old ≤ B.faults bench.new }
    ensures later_out { O.faults out.old ≤ O.faults out.new }
{
    bench.known();
    let Inspected {
        files,
        findings,
        draft,
    } = found;
    let plan = match plan_repair(alloc, bench, &files, draft) {
        Ok(plan) => plan,
        Err(stop) => return by_work(stop),
    };
    if let Err(stop) = say_mend(alloc, medium, &findings, plan.len(), out) {
        return stop.outcome();
    }
    write(alloc, replayed, &plan, &files.volume, bench)
}

// Tells that no rule is broken.
fn end_unbroken<O: Sink>(alloc: Global, medium: &str, replayed: u32, out: &mut O) -> Outcome
    ensures ended { HasEnded result → result ≡ repaired_as replayed [] 0 }
    ensures said { (before : List ℕ) → O.told out.old ≡ Some before → Says (O.told out.new) before (text_of medium.now Outcome.Clean) result }
    ensures device { result ≡ Outcome.DeviceFault → ⊥ }
    ensures out { result ≡ Outcome.OutFault → Rose (O.faults out.old) (O.faults out.new) }
    ensures later { O.faults out.old ≤ O.faults out.new }
{
    match say(alloc, medium, Outcome::Clean, out) {
        Outcome::Clean if replayed > 0 => Outcome::Repaired {
            replayed,
            written: 0,
        },
        outcome => outcome,
    }
}

/// Repairs a settled image, after a replay of so many blocks. `length` is the image's in bytes.
#[tactic(auto, using(udf_model::proofs::Sizes::large))]
pub(crate) fn mend<B: Bench, O: Sink>(
    alloc: Global,
    size: u32,
    medium: &str,
    length: u64,
    replayed: u32,
    bench: &mut B,
    out: &mut O,
) -> Outcome
    requires image { IsWritable Image (B.files bench.old) }
    requires side { IsWritable Side (B.files bench.old) }
    requires length { length ≡ (B.files bench.old).image.size }
    requires size { is_size size ≡ true }
    requires free { B.tells → IsFree (bytes_of Side (B.held bench.old)) }
    requires synced { B.tells → IsSynced (B.held bench.old) }
    ensures mends { B.tells → Mends size replayed (B.held bench.old) (B.held bench.new) result }
    ensures said { B.tells → (before : List ℕ) → O.told out.old ≡ Some before
        → Says (O.told out.new) before (mend_said size medium.now (bytes_of Image (B.held bench.old))) result }
    ensures device { result ≡ Outcome.DeviceFault → Rose (B.faults bench.old) (B.faults bench.new) }
    ensures out { result ≡ Outcome.OutFault → Rose (O.faults out.old) (O.faults out.new) }
    ensures usage { (cause : Cause) → result ≡ Outcome.Usage cause → ⊥ }
    ensures other { result ≡ Outcome.SameFile → ⊥ }
    ensures files { KeepsAsked (B.files bench.old) (B.files bench.new) }
    ensures later { B.faults bench.old ≤ B.faults bench.new }
    ensures later_out { O.faults out.old ≤ O.faults out.new }
{
    match inspect(alloc, bench, size, length) {
        Ok(found) => {
            if found.findings.is_empty() {
                end_unbroken(alloc, medium, replayed, out)
            } else {
                mend_broken(alloc, medium, replayed, found, bench, out)
            }
        }
        Err(LayerStop::Missing(missing)) => say(alloc, medium, Outcome::Refused(missing), out),
        Err(LayerStop::Fault) => Outcome::DeviceFault,
        Err(LayerStop::Memory) => Outcome::Memory,
    }
}
