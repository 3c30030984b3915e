//! The first bytes of a log: a closed gate and the name.
ghost use Rattle.std.specs.Prelude.{◌≡◌, ◌≤◌, ◌∷◌, OnOk};
ghost use Rattle.udf_outside.specs.Files.{IsWritable, resized};
ghost use Rattle.udf_outside.specs.Stops.{bytes_of, IsSynced, LeavesOnly};
ghost use Rattle.udf_outside.specs.Causes.{HasCause};
ghost use Rattle.udf_outside.specs.declared.bench.Role.TheVariants.{Image, Side};
ghost use Rattle.udf_redo.specs.Log.{name};
ghost use Rattle.udf_redo.specs.Settled.{IsFree};
ghost use Rattle.udf_redo.specs.Front.{IsShort, IsShut};
ghost use Rattle.udf_redo.specs.Runs.{IsLogging};

use crate::head::FRONT;
use udf_outside::{Bench, Failed, Role};

// Writes a closed gate and the name over a file that is too short for a log.
fn write_front<B: Bench>(bench: &mut B) -> Result<(), Failed>
    requires writable { IsWritable Side (B.files bench.old) }
    requires short { (B.files bench.old).side.size ≤ 9 }
    requires synced { B.tells → IsSynced (B.held bench.old) }
    ensures moments { B.tells → LeavesOnly (B.held bench.old) (B.held bench.new) (IsShort (bytes_of Image (B.held bench.old)) 9) }
    ensures side { B.tells → OnOk result (bytes_of Side (B.held bench.new) ≡ 0 ∷ name) }
    ensures image { B.tells → bytes_of Image (B.held bench.new) ≡ bytes_of Image (B.held bench.old) }
    ensures synced { B.tells → OnOk result (IsSynced (B.held bench.new)) }
    ensures files { B.files bench.new ≡ resized Side (B.files bench.new).side.size (B.files bench.old) }
    ensures long { OnOk result (9 ≤ (B.files bench.new).side.size) }
    ensures cause { HasCause (B.faults bench.old) (B.faults bench.new) result }
{
    bench.write_at(Role::Side, 0, b"\0UDFREDO1")?;
    bench.sync(Role::Side)
}

/// Gives a side file that is empty a closed gate and the name. One that is a closed log has both.
pub fn make_front<B: Bench>(bench: &mut B) -> Result<(), Failed>
    requires writable { IsWritable Side (B.files bench.old) }
    requires free { B.tells → IsFree (bytes_of Side (B.held bench.old)) }
    requires synced { B.tells → IsSynced (B.held bench.old) }
    ensures moments { B.tells → LeavesOnly (B.held bench.old) (B.held bench.new) (IsLogging (bytes_of Image (B.held bench.old))) }
    ensures shut { B.tells → OnOk result (IsShut (bytes_of Side (B.held bench.new))) }
    ensures image { B.tells → bytes_of Image (B.held bench.new) ≡ bytes_of Image (B.held bench.old) }
    ensures synced { B.tells → OnOk result (IsSynced (B.held bench.new)) }
    ensures files { B.files bench.new ≡ resized Side (B.files bench.new).side.size (B.files bench.old) }
    ensures long { OnOk result (9 ≤ (B.files bench.new).side.size) }
    ensures cause { HasCause (B.faults bench.old) (B.faults bench.new) result }
{
    let length = bench.length(Role::Side)?;
    if length <= FRONT as u64 {
        return write_front(bench);
    }
    Ok(())
}
