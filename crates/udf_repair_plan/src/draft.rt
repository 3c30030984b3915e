//! What a repair writes of a volume before its files are read.
ghost use Rattle.std.specs.Prelude.{IfOk};
ghost use Rattle.udf_outside.specs.Reads.{OnlyReads};
ghost use Rattle.udf_outside.specs.Stops.{bytes_of};
ghost use Rattle.udf_outside.specs.declared.bench.Role.TheVariants.{Image};
ghost use Rattle.udf_volume.specs.Taken.{IsOpenOver, IsOpenedOf};
ghost use Rattle.udf_repair_plan.specs.Draft.{IsDraftFor, IsDraftOf};

use crate::{Plan, WorkStop};
use std::alloc::Global;
use udf_outside::Bench;
use udf_plan::plan_volume;
use udf_space_plan::put_recognition;
use udf_volume::Opened;
use udf_wanted::Wanted;

/// What a repair is to write of a volume before its files are known: the wanted blocks of the recognition sequence, and the plan of the
/// mend of the volume itself.
#[derive(Drop)]
pub struct Draft {
    pub(crate) wanted: Wanted,
    pub(crate) own: Plan,
}

/// The draft of a volume that was opened of the image. It is made first, since reading the files takes the volume's layout.
pub fn draft_volume<B: Bench>(
    alloc: Global,
    bench: &mut B,
    opened: &Opened,
) -> Result<Draft, WorkStop>
    requires over { IsOpenOver opened.now (B.files bench.old) }
    requires opened { B.tells → IsOpenedOf (bytes_of Image (B.held bench.old)) opened.now }
    ensures drafted { B.tells → IfOk result (IsDraftOf opened.now.volume (bytes_of Image (B.held bench.old))) }
    ensures lawful { IfOk result (IsDraftFor opened.now.volume) }
    ensures reads { OnlyReads B.files B.held B.faults bench.old bench.new WorkStop.Fault result }
{
    let mut block = vec![in alloc; 0u8; opened.volume.size as usize]?;
    let mut wanted = Wanted::new(alloc);
    put_recognition(alloc, bench, opened, &mut wanted, &mut block)?;
    let own = plan_volume(alloc, bench, opened)?;
    Ok(Draft { wanted, own })
}
