// Runs: the descriptors of blocks and holes in a list.
ghost use Rattle.std.specs.Prelude.{◌≡◌, ◌+◌, ◌*◌, ◌<◌, ◌≤◌, length};
ghost use Rattle.udf_file_model.specs.Descriptors.{descriptor_at, descriptor_count};
ghost use Rattle.udf_file_model.specs.Front.{blocks_for};
ghost use Rattle.udf_entry.specs.RunView.{run_seen};

use udf_field::{Addr, Fields};

// Kinds of allocation descriptors: short, and long (ECMA-167 4/14.6.8).
const SHORT: u8 = 0;

const LONG: u8 = 1;

// The bytes of a short and of a long descriptor (ECMA-167 4/14.14.1 and 4/14.14.2).
const SHORT_BYTES: u32 = 8;

const LONG_BYTES: u32 = 16;

/// An allocation descriptor of a list.
#[derive(Clone, Copy, Debug, PartialEq, Eq)]
pub struct Run {
    /// 0 recorded blocks, 1 blocks that are allocated alone, 2 a hole, 3 a continuation (ECMA-167 4/14.14.1.1).
    pub kind: u8,
    /// Its bytes.
    pub length: u32,
    /// Its first block.
    pub at: Addr,
    /// The entry or allocation extent that holds it.
    pub holder: Addr,
    /// Its number there, from 0, continuations counted.
    pub index: u32,
}

/// How many whole descriptors a body of so many bytes has.
#[tactic(auto, unfolding(udf_file_model::specs::Descriptors::descriptor_count))]
pub(crate) fn count_of(kind: u8, bytes: u32) -> u32
    ensures { result ≡ descriptor_count kind bytes }
{
    match kind {
        SHORT => bytes / SHORT_BYTES,
        LONG => bytes / LONG_BYTES,
        _ => 0,
    }
}

/// Descriptor i of a body.
#[tactic(auto, unfolding(udf_file_model::specs::Descriptors::descriptor_at))]
pub(crate) fn run_at(kind: u8, holder: Addr, body: &[u8], i: u32) -> Run
    requires short { kind ≡ 0 → 8 * i + 8 ≤ length body.now }
    requires long { (kind ≡ 0 → ⊥) → 16 * i + 16 ≤ length body.now }
    ensures { run_seen result ≡ descriptor_at kind holder body.now i }
{
    let fields = Fields::over(body);
    if kind == SHORT {
        let short = fields.short_at(SHORT_BYTES as usize * i as usize);
        return Run {
            kind: short.kind,
            length: short.length,
            at: Addr {
                part: holder.part,
                block: short.block,
            },
            holder,
            index: i,
        };
    }
    let long = fields.long_at(LONG_BYTES as usize * i as usize);
    Run {
        kind: long.kind,
        length: long.length,
        at: long.at,
        holder,
        index: i,
    }
}

/// The blocks that so many bytes take.
pub(crate) fn blocks_of(size: u32, bytes: u32) -> u32
    requires { 0 < size }
    ensures { result ≡ blocks_for size bytes }
{
    ((bytes as u64 + (size - 1) as u64) / size as u64) as u32
}
