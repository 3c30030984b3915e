//! The blocks of a plan are written to the image.
ghost use Rattle.std.specs.Prelude.{◌≡◌, ◌/◌, true, OnOk};
ghost use Rattle.udf_blocks.specs.Planned.{are_below};
ghost use Rattle.udf_outside.specs.Files.{IsWritable};
ghost use Rattle.udf_outside.specs.Stops.{bytes_of, part_of, IsSynced, LeavesOnly};
ghost use Rattle.udf_outside.specs.declared.bench.Role.TheVariants.{Image, Side};
ghost use Rattle.udf_redo.specs.Log.{head_in, records_of};
ghost use Rattle.udf_redo.specs.Settled.{IsOpenLog, applied_to};
ghost use Rattle.udf_redo.specs.Runs.{IsApplying};
ghost use Rattle.udf_redo.specs.Faults.{HasFault, OnlyFaults};

use crate::RedoStop;
use udf_blocks::Plan;
use udf_outside::{Bench, Role};

/// Writes each block of the plan, in order, and brings them to the medium. The side file holds the plan as an open log of the
/// image, whose block size in bytes is `size`. It takes no memory.
pub fn apply<B: Bench>(bench: &mut B, plan: &Plan, size: u32) -> Result<(), RedoStop>
    requires writable { IsWritable Image (B.files bench.old) }
    requires blocks { plan.now.size ≡ size }
    requires within { are_below ((B.files bench.old).image.size / size) plan.now.blocks ≡ true }
    requires log { B.tells → IsOpenLog (bytes_of Side (B.held bench.old)) (bytes_of Image (B.held bench.old)) }
    requires size { B.tells → (head_in (bytes_of Side (B.held bench.old))).size ≡ size }
    requires records { B.tells → records_of (bytes_of Side (B.held bench.old)) ≡ plan.now.blocks }
    requires synced { B.tells → IsSynced (B.held bench.old) }
    ensures moments { B.tells → LeavesOnly (B.held bench.old) (B.held bench.new)
        (IsApplying (bytes_of Side (B.held bench.old)) (bytes_of Image (B.held bench.old))) }
    ensures same_side { B.tells → LeavesOnly (B.held bench.old) (B.held bench.new) (λ pair. part_of Side pair ≡ bytes_of Side (B.held bench.old)) }
    ensures image { B.tells → OnOk result (bytes_of Image (B.held bench.new)
        ≡ applied_to (bytes_of Side (B.held bench.old)) (bytes_of Image (B.held bench.old))) }
    ensures again { B.tells → applied_to (bytes_of Side (B.held bench.old)) (bytes_of Image (B.held bench.new))
        ≡ applied_to (bytes_of Side (B.held bench.old)) (bytes_of Image (B.held bench.old)) }
    ensures side { B.tells → bytes_of Side (B.held bench.new) ≡ bytes_of Side (B.held bench.old) }
    ensures log { B.tells → IsOpenLog (bytes_of Side (B.held bench.old)) (bytes_of Image (B.held bench.new)) }
    ensures synced { B.tells → OnOk result (IsSynced (B.held bench.new)) }
    ensures files { B.files bench.new ≡ B.files bench.old }
    ensures only_faults { OnlyFaults result }
    ensures cause { HasFault (B.faults bench.old) (B.faults bench.new) result }
{
    for i in 0..plan.len() {
        let (sector, block) = plan.block(i);
        bench.write_at(Role::Image, sector as u64 * size as u64, block)?;
    }
    bench.sync(Role::Image)?;
    Ok(())
}
