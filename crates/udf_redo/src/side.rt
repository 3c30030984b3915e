//! What a side file is.
ghost use Rattle.std.specs.Prelude.{◌≡◌, IfOk, IfErr};
ghost use Rattle.udf_outside.specs.Files.{IsAttached};
ghost use Rattle.udf_outside.specs.Reads.{OnlyReads};
ghost use Rattle.udf_outside.specs.Stops.{bytes_of};
ghost use Rattle.udf_outside.specs.declared.bench.Role.TheVariants.{Side};
ghost use Rattle.udf_redo.specs.Log.{open_answer, state_of};
ghost use Rattle.udf_redo.specs.Faults.{Answers};
ghost use Rattle.udf_redo.specs.Side.{OpensWithin, IsRefusal};

use crate::head::{FRONT, GATE_OPEN, HEAD, NAME};
use crate::record::hold_lawful_records;
use crate::{LogHead, RedoStop};
use udf_outside::{Bench, Role};

/// What a side file is.
#[derive(Clone, Copy, Debug, PartialEq, Eq)]
pub enum SideState {
    /// It has at most nine bytes, whatever they are.
    Empty,
    /// It has the name, and its gate is not open.
    Closed,
    /// It is an open log.
    Open(LogHead),
}

// What a side file with the name and an open gate is.
fn open_state<B: Bench>(bench: &mut B, length: u64) -> Result<SideState, RedoStop>
    requires attached { IsAttached Side (B.files bench.old) }
    requires length { length ≡ (B.files bench.old).side.size }
    ensures state { B.tells → Answers (open_answer (bytes_of Side (B.held bench.old))) result }
    ensures within { IfOk result (OpensWithin length) }
    ensures refusal { IfErr result IsRefusal }
    ensures reads { OnlyReads B.files B.held B.faults bench.old bench.new RedoStop.Fault result }
{
    if length < HEAD as u64 {
        return Err(RedoStop::BadLog);
    }
    let mut file = [0; HEAD];
    bench.read_at(Role::Side, 0, &mut file)?;
    let head = LogHead::read(&file);
    if !head.is_lawful() {
        return Err(RedoStop::BadLog);
    }
    if length < head.length() {
        return Err(RedoStop::BadLog);
    }
    if !hold_lawful_records(bench, &head)? {
        return Err(RedoStop::BadLog);
    }
    Ok(SideState::Open(head))
}

/// What the side file is, whose length in bytes is given. It takes no memory.
pub fn side_state<B: Bench>(bench: &mut B, length: u64) -> Result<SideState, RedoStop>
    requires attached { IsAttached Side (B.files bench.old) }
    requires length { length ≡ (B.files bench.old).side.size }
    ensures state { B.tells → Answers (state_of (bytes_of Side (B.held bench.old))) result }
    ensures within { IfOk result (OpensWithin length) }
    ensures refusal { IfErr result IsRefusal }
    ensures reads { OnlyReads B.files B.held B.faults bench.old bench.new RedoStop.Fault result }
{
    if length <= FRONT as u64 {
        return Ok(SideState::Empty);
    }
    let mut front = [0; FRONT];
    bench.read_at(Role::Side, 0, &mut front)?;
    let name = &front[1..];
    if name != NAME.as_slice() {
        return Err(RedoStop::NotALog);
    }
    if front[0] != GATE_OPEN {
        return Ok(SideState::Closed);
    }
    open_state(bench, length)
}
