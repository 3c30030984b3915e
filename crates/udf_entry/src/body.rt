// Reading the descriptors of one entry or allocation extent.
ghost use Rattle.std.specs.Prelude.{◌≡◌, ℕ, Bool, ◌+◌, ◌*◌, ◌^◌, ◌<◌, ◌≤◌, IfOk, List, length};
ghost use Rattle.udf_field.specs.declared.address.Addr.{Addr};
ghost use Rattle.udf_file_model.specs.Descriptors.{descriptors};
ghost use Rattle.udf_file_model.specs.Pieces.{Piece, pieces};
ghost use Rattle.udf_entry.specs.Outcome.{outcome};
ghost use Rattle.udf_entry.specs.NextView.{outcome_next};
ghost use Rattle.udf_entry.specs.ReadingView.{past_of, rules_seen};

use crate::reading::Reading;
use crate::run::{count_of, run_at};
use std::alloc::AllocError;
use udf_field::Addr;
use udf_layer::Parts;

/// How the descriptors of a body end.
#[derive(Clone, Copy, Debug, PartialEq, Eq)]
pub(crate) enum Next {
    /// Nothing follows.
    End,
    /// Something failed.
    Failed,
    /// The list goes on in an allocation extent.
    Onward(Addr),
}

// The kind of a continuation (ECMA-167 4/14.14.1.1).
const CONTINUATION: u8 = 3;

/// Reads the descriptors of a body, up to the first that fails or goes on elsewhere.
pub(crate) fn read_body<P: Parts>(
    reading: Reading,
    parts: &P,
    kind: u8,
    holder: Addr,
    body: &[u8],
) -> Result<(Reading, Next), AllocError>
    requires { length body.now < 2 ^ 32 }
    ensures outcome { IfOk result (λ t. (k : Addr → List Piece) (whole : Addr → Bool)
        → outcome_next (rules_seen reading.rules (P.place parts.now)) whole (past_of t.0) k t.1
        ≡ outcome (rules_seen reading.rules (P.place parts.now)) whole (past_of reading) (pieces k (descriptors kind holder body.now))) }
    ensures rules { IfOk result (λ t. t.0.rules ≡ reading.rules) }
    ensures extents { IfOk result (λ t. t.0.extents.items ≡ reading.extents.items) }
{
    let count = count_of(kind, body.len() as u32);
    let mut reading = reading;
    for i in 0..count {
        let run = run_at(kind, holder, body, i);
        if run.length == 0 {
            return Ok((reading, Next::End));
        }
        if run.kind == CONTINUATION {
            return Ok((reading, Next::Onward(run.at)));
        }
        let (taken, whole) = reading.take(parts, run)?;
        if !whole {
            return Ok((taken, Next::Failed));
        }
        reading = taken;
    }
    Ok((reading, Next::End))
}
