//! A repair begins: both files are attached, and what an earlier run began is ended.
ghost use Rattle.std.specs.Prelude.{◌≡◌, ◌⊎◌, IfOk, IfSome, OnOk, IsErrOf, Some, None};
ghost use Rattle.udf_outside.specs.Files.{IsWritable};
ghost use Rattle.udf_outside.specs.Stops.{bytes_of, pair_of, IsSynced, LeavesOnly};
ghost use Rattle.udf_outside.specs.Causes.{HasCause};
ghost use Rattle.udf_outside.specs.declared.bench.Role.TheVariants.{Image, Side};
ghost use Rattle.udf_outside.specs.declared.bench.Access.TheVariants.{Write, Create};
ghost use Rattle.udf_redo.specs.Settled.{settled as settled_image, CanGoOn, IsFree, IsOpenLog};
ghost use Rattle.udf_redo.specs.Faults.{Answers, HasFault};
ghost use Rattle.udf_redo.specs.declared.stop.RedoStop.TheVariants.{Memory};
ghost use Rattle.udf_top.specs.Repairing.{replaying};
ghost use Rattle.udf_top.specs.Attaching.{WasAsked};
ghost use Rattle.udf_top.specs.Steps.{IsSettling};

use std::alloc::Global;
use udf_outside::{Access, Bench, Failed, Role};
use udf_redo::{RedoStop, SideState, replay, side_state};

/// The lengths of both files in bytes.
#[derive(Clone, Copy, Debug)]
pub(crate) struct Lengths {
    pub image: u64,
    pub side: u64,
}

/// Attaches the image for writing, and the side file, which is made where it is missing.
pub(crate) fn attach_files<B: Bench>(
    medium: &str,
    side: &str,
    bench: &mut B,
) -> Result<Lengths, Failed>
    requires image { (B.files bench.old).image.asked ≡ None }
    requires side { (B.files bench.old).side.asked ≡ None }
    ensures image { OnOk result (IsWritable Image (B.files bench.new)) }
    ensures side { OnOk result (IsWritable Side (B.files bench.new)) }
    ensures image_length { IfOk result (λ lengths. lengths.image ≡ (B.files bench.new).image.size) }
    ensures side_length { IfOk result (λ lengths. lengths.side ≡ (B.files bench.new).side.size) }
    ensures asked { (B.files bench.new).image.asked ≡ Some Write }
    ensures named { IfSome (B.files bench.new).image.name (λ told. told ≡ medium.now) }
    ensures beside { WasAsked side.now (B.files bench.old) (B.files bench.new) }
    ensures held { B.held bench.new ≡ B.held bench.old }
    ensures cause { HasCause (B.faults bench.old) (B.faults bench.new) result }
{
    bench.attach(Role::Image, medium, Access::Write)?;
    bench.attach(Role::Side, side, Access::Create)?;
    let image = bench.length(Role::Image)?;
    let side = bench.length(Role::Side)?;
    Ok(Lengths { image, side })
}

/// Replays a log that an earlier run left open, and answers the number of its blocks, 0 where none was open. It takes no
/// memory once it has begun to write.
pub(crate) fn settle<B: Bench>(
    alloc: Global,
    bench: &mut B,
    lengths: Lengths,
) -> Result<u32, RedoStop>
    requires image { IsWritable Image (B.files bench.old) }
    requires side { IsWritable Side (B.files bench.old) }
    requires image_length { lengths.image ≡ (B.files bench.old).image.size }
    requires side_length { lengths.side ≡ (B.files bench.old).side.size }
    requires synced { B.tells → IsSynced (B.held bench.old) }
    ensures answer { B.tells → Answers (replaying (pair_of (B.held bench.old))) result }
    ensures image { B.tells → OnOk result (bytes_of Image (B.held bench.new) ≡ settled_image (pair_of (B.held bench.old))) }
    ensures free { B.tells → OnOk result (IsFree (bytes_of Side (B.held bench.new))) }
    ensures synced { B.tells → OnOk result (IsSynced (B.held bench.new)) }
    ensures moments { B.tells → CanGoOn (pair_of (B.held bench.old))
        → LeavesOnly (B.held bench.old) (B.held bench.new) (IsSettling (pair_of (B.held bench.old))) }
    ensures still { B.tells → (IsOpenLog (bytes_of Side (B.held bench.old)) (bytes_of Image (B.held bench.old)) → ⊥)
        → B.held bench.new ≡ B.held bench.old }
    ensures files { B.files bench.new ≡ B.files bench.old }
    ensures memory { IsErrOf result Memory → B.held bench.new ≡ B.held bench.old }
    ensures cause { HasFault (B.faults bench.old) (B.faults bench.new) result }
{
    match side_state(bench, lengths.side) {
        Ok(SideState::Empty) => Ok(0),
        Ok(SideState::Closed) => Ok(0),
        Ok(SideState::Open(head)) => replay(alloc, bench, &head, lengths.image),
        Err(stop) => Err(stop),
    }
}
