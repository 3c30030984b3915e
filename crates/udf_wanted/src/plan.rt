//! The plan of wanted blocks: those of them that the image does not have yet.
ghost use Rattle.std.specs.Prelude.{◌≡◌, ℕ, length, IfOk};
ghost use Rattle.udf_outside.specs.Reads.{OnlyReads};
ghost use Rattle.udf_outside.specs.Sectors.{disk_of};
ghost use Rattle.udf_volume_model.specs.Edits.{look};
ghost use Rattle.udf_volume_model.specs.Plans.{planned};
ghost use Rattle.udf_volume.specs.Over.{IsOver};
ghost use Rattle.udf_blocks.specs.PlanFor.{IsPlanFor};
ghost use Rattle.udf_wanted.specs.Wanted.{changed};
ghost use Rattle.udf_wanted.specs.Writable.{AreWritable};

use crate::difference::add_difference;
use crate::wanted::Wanted;
use crate::{Plan, WorkStop};
use std::alloc::Global;
use udf_outside::{Bench, read_block};
use udf_volume::Volume;

/// The wanted blocks that differ from the image's. `block` is lent and has the block size.
pub fn plan_wanted<B: Bench>(
    alloc: Global,
    bench: &mut B,
    volume: &Volume,
    wanted: &Wanted,
    block: &mut [u8],
) -> Result<Plan, WorkStop>
    requires over { IsOver volume.now (B.files bench.old) }
    requires writable { AreWritable volume.now wanted.now }
    requires room { length block.old ≡ volume.now.size }
    ensures plan { B.tells → IfOk result (λ plan. (n : ℕ) → planned n plan.blocks
        ≡ changed (disk_of volume.now.size (B.held bench.old) n) (look n wanted.now (disk_of volume.now.size (B.held bench.old) n))) }
    ensures lawful { IfOk result (IsPlanFor volume.now) }
    ensures reads { OnlyReads B.files B.held B.faults bench.old bench.new WorkStop.Fault result }
{
    let mut plan = Plan::blank(alloc, volume.size);
    for (sector, after) in &wanted.blocks {
        read_block(bench, volume.size, *sector, block)?;
        add_difference(&mut plan, *sector, block, after)?;
    }
    Ok(plan)
}
