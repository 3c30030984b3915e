//! The body of a log: everything behind the name.
ghost use Rattle.std.specs.Prelude.{◌≡◌, ◌≤◌, ◌+◌, ◌++◌, length, take, OnOk};
ghost use Rattle.std.specs.List.{All, flat_map};
ghost use Rattle.udf_outside.specs.Files.{IsWritable, resized};
ghost use Rattle.udf_outside.specs.Stops.{bytes_of, put, IsSynced, LeavesOnly};
ghost use Rattle.udf_outside.specs.Causes.{HasCause};
ghost use Rattle.udf_outside.specs.declared.bench.Role.TheVariants.{Image, Side};
ghost use Rattle.udf_redo.specs.Log.{head_bytes, record_bytes};
ghost use Rattle.udf_redo.specs.Front.{BeginsWith};

use crate::LogHead;
use crate::head::{FRONT, SECTOR};
use udf_blocks::Plan;
use udf_outside::{Bench, Failed, Role};

/// Writes the head and the records behind the name. A stop leaves the first nine bytes as they are.
pub fn write_body<B: Bench>(bench: &mut B, head: &LogHead, plan: &Plan) -> Result<(), Failed>
    requires writable { IsWritable Side (B.files bench.old) }
    requires long { 9 ≤ (B.files bench.old).side.size }
    requires size { head.now.size ≤ 4096 }
    requires blocks { All (λ edit. length edit.1 ≡ head.now.size) plan.now.blocks }
    requires synced { B.tells → IsSynced (B.held bench.old) }
    ensures moments { B.tells → LeavesOnly (B.held bench.old) (B.held bench.new)
        (BeginsWith (bytes_of Image (B.held bench.old)) (take 9 (bytes_of Side (B.held bench.old)))) }
    ensures side { B.tells → OnOk result (bytes_of Side (B.held bench.new)
        ≡ put (bytes_of Side (B.held bench.old)) 9 (head_bytes head.now ++ flat_map record_bytes plan.now.blocks)) }
    ensures image { B.tells → bytes_of Image (B.held bench.new) ≡ bytes_of Image (B.held bench.old) }
    ensures synced { B.tells → OnOk result (IsSynced (B.held bench.new)) }
    ensures files { B.files bench.new ≡ resized Side (B.files bench.new).side.size (B.files bench.old) }
    ensures cause { HasCause (B.faults bench.old) (B.faults bench.new) result }
{
    bench.write_at(Role::Side, FRONT as u64, &head.bytes())?;
    for i in 0..plan.len() {
        let (sector, block) = plan.block(i);
        let at = head.place(i);
        bench.write_at(Role::Side, at, &sector.to_le_bytes())?;
        bench.write_at(Role::Side, at + SECTOR, block)?;
    }
    bench.sync(Role::Side)
}
