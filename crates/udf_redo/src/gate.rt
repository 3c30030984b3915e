//! The gate of a log: its first byte.
ghost use Rattle.std.specs.Prelude.{◌≡◌, ◌∷◌, ◌<◌, ◌≤◌, drop, length, OnOk};
ghost use Rattle.udf_outside.specs.Files.{IsWritable, resized};
ghost use Rattle.udf_outside.specs.Stops.{bytes_of, IsSynced, LeavesOnly};
ghost use Rattle.udf_outside.specs.Causes.{HasCause};
ghost use Rattle.udf_outside.specs.declared.bench.Role.TheVariants.{Image, Side};
ghost use Rattle.udf_redo.specs.Log.{opened, closed, state_of, head_in, records_of};
ghost use Rattle.udf_redo.specs.Settled.{IsOpenLog, applied_to};
ghost use Rattle.udf_redo.specs.Front.{IsGated};
ghost use Rattle.udf_redo.specs.Runs.{IsOpening, IsClosing};
ghost use Rattle.udf_redo.specs.Faults.{HasFault, OnlyFaults};
ghost use Rattle.udf_redo.specs.declared.side.SideState.TheVariants.{Closed};

use crate::RedoStop;
use crate::head::{GATE_CLOSED, GATE_OPEN};
use udf_outside::{Bench, Failed, Role};

// Writes the first byte. A stop leaves some first byte, and the rest as it is.
fn set_gate<B: Bench>(bench: &mut B, gate: u8) -> Result<(), Failed>
    requires writable { IsWritable Side (B.files bench.old) }
    requires some { B.tells → 0 < length (bytes_of Side (B.held bench.old)) }
    requires synced { B.tells → IsSynced (B.held bench.old) }
    ensures moments { B.tells → LeavesOnly (B.held bench.old) (B.held bench.new)
        (IsGated (bytes_of Image (B.held bench.old)) (drop 1 (bytes_of Side (B.held bench.old)))) }
    ensures side { B.tells → OnOk result (bytes_of Side (B.held bench.new) ≡ gate ∷ drop 1 (bytes_of Side (B.held bench.old))) }
    ensures image { B.tells → bytes_of Image (B.held bench.new) ≡ bytes_of Image (B.held bench.old) }
    ensures synced { B.tells → OnOk result (IsSynced (B.held bench.new)) }
    ensures files { B.files bench.new ≡ resized Side (B.files bench.new).side.size (B.files bench.old) }
    ensures same_files { 1 ≤ (B.files bench.old).side.size → B.files bench.new ≡ B.files bench.old }
    ensures cause { HasCause (B.faults bench.old) (B.faults bench.new) result }
{
    bench.write_at(Role::Side, 0, &[gate])?;
    bench.sync(Role::Side)
}

/// Opens the gate of a log of the image. It takes no memory.
pub fn open_gate<B: Bench>(bench: &mut B) -> Result<(), RedoStop>
    requires writable { IsWritable Side (B.files bench.old) }
    requires log { B.tells → IsOpenLog (opened (bytes_of Side (B.held bench.old))) (bytes_of Image (B.held bench.old)) }
    requires synced { B.tells → IsSynced (B.held bench.old) }
    ensures moments { B.tells → LeavesOnly (B.held bench.old) (B.held bench.new)
        (IsOpening (bytes_of Side (B.held bench.old)) (bytes_of Image (B.held bench.old))) }
    ensures side { B.tells → OnOk result (bytes_of Side (B.held bench.new) ≡ opened (bytes_of Side (B.held bench.old))) }
    ensures log { B.tells → OnOk result (IsOpenLog (bytes_of Side (B.held bench.new)) (bytes_of Image (B.held bench.new))) }
    ensures head { B.tells → OnOk result (head_in (bytes_of Side (B.held bench.new)) ≡ head_in (bytes_of Side (B.held bench.old))) }
    ensures records { B.tells → OnOk result (records_of (bytes_of Side (B.held bench.new)) ≡ records_of (bytes_of Side (B.held bench.old))) }
    ensures image { B.tells → bytes_of Image (B.held bench.new) ≡ bytes_of Image (B.held bench.old) }
    ensures synced { B.tells → OnOk result (IsSynced (B.held bench.new)) }
    ensures files { B.files bench.new ≡ resized Side (B.files bench.new).side.size (B.files bench.old) }
    ensures same_files { 1 ≤ (B.files bench.old).side.size → B.files bench.new ≡ B.files bench.old }
    ensures only_faults { OnlyFaults result }
    ensures cause { HasFault (B.faults bench.old) (B.faults bench.new) result }
{
    set_gate(bench, GATE_OPEN)?;
    Ok(())
}

/// Closes the gate of an open log whose blocks the image holds. It takes no memory.
pub fn close_gate<B: Bench>(bench: &mut B) -> Result<(), RedoStop>
    requires writable { IsWritable Side (B.files bench.old) }
    requires log { B.tells → IsOpenLog (bytes_of Side (B.held bench.old)) (bytes_of Image (B.held bench.old)) }
    requires done { B.tells → applied_to (bytes_of Side (B.held bench.old)) (bytes_of Image (B.held bench.old)) ≡ bytes_of Image (B.held bench.old) }
    requires synced { B.tells → IsSynced (B.held bench.old) }
    ensures moments { B.tells → LeavesOnly (B.held bench.old) (B.held bench.new)
        (IsClosing (bytes_of Side (B.held bench.old)) (bytes_of Image (B.held bench.old))) }
    ensures side { B.tells → OnOk result (bytes_of Side (B.held bench.new) ≡ closed (bytes_of Side (B.held bench.old))) }
    ensures closed { B.tells → OnOk result (state_of (bytes_of Side (B.held bench.new)) ≡ Ok Closed) }
    ensures image { B.tells → bytes_of Image (B.held bench.new) ≡ bytes_of Image (B.held bench.old) }
    ensures synced { B.tells → OnOk result (IsSynced (B.held bench.new)) }
    ensures files { B.files bench.new ≡ resized Side (B.files bench.new).side.size (B.files bench.old) }
    ensures same_files { 1 ≤ (B.files bench.old).side.size → B.files bench.new ≡ B.files bench.old }
    ensures only_faults { OnlyFaults result }
    ensures cause { HasFault (B.faults bench.old) (B.faults bench.new) result }
{
    set_gate(bench, GATE_CLOSED)?;
    Ok(())
}
