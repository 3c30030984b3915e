//! The plan of a volume for the rules on sequences (ECMA-167 3/8.4.2, 3/8.4.3), on anchors (3/8.4.2.1) and on sparing tables (UDF
//! 2.50 2.2.12).
ghost use Rattle.std.specs.Prelude.{◌≡◌, IfOk};
ghost use Rattle.udf_outside.specs.Stops.{bytes_of};
ghost use Rattle.udf_outside.specs.Reads.{OnlyReads};
ghost use Rattle.udf_outside.specs.declared.bench.Role.TheVariants.{Image};
ghost use Rattle.udf_volume_model.specs.Opened.{volume_mended, plan_of};
ghost use Rattle.udf_volume.specs.Taken.{IsOpenOver, IsOpenedOf};
ghost use Rattle.udf_blocks.specs.PlanFor.{IsPlanFor};

use crate::anchors::put_anchors;
use crate::sequence::put_sequence;
use crate::tables::put_tables;
use crate::{Plan, WorkStop};
use std::alloc::Global;
use udf_outside::Bench;
use udf_volume::Opened;
use udf_wanted::{Wanted, plan_wanted};

/// The blocks in which the mended image differs from the image, for the rules on sequences, anchors and sparing tables.
pub fn plan_volume<B: Bench>(
    alloc: Global,
    bench: &mut B,
    opened: &Opened,
) -> Result<Plan, WorkStop>
    requires over { IsOpenOver opened.now (B.files bench.old) }
    ensures plan { B.tells → IsOpenedOf (bytes_of Image (B.held bench.old)) opened.now
        → IfOk result (λ plan. plan.blocks ≡ plan_of opened.now.volume.size (bytes_of Image (B.held bench.old))
        (volume_mended opened.now.volume.size (bytes_of Image (B.held bench.old)))) }
    ensures lawful { IfOk result (IsPlanFor opened.now.volume) }
    ensures reads { OnlyReads B.files B.held B.faults bench.old bench.new WorkStop.Fault result }
{
    let volume = &opened.volume;
    let mut block = vec![in alloc; 0u8; volume.size as usize]?;
    let mut wanted = Wanted::new(alloc);
    put_sequence(alloc, bench, volume, &mut wanted, &mut block)?;
    put_anchors(alloc, bench, opened, &mut wanted, &mut block)?;
    put_tables(alloc, bench, volume, &mut wanted)?;
    plan_wanted(alloc, bench, volume, &wanted, &mut block)
}
