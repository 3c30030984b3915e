//! The mend of the rule on anchors (ECMA-167 3/8.4.2.1): each bad place gets the kept anchor's block, relocated. It reads the
//! eligible places and the kept anchor.
ghost use Rattle.std.specs.Prelude.{◌≡◌, ◌++◌, length, OnOk};
ghost use Rattle.std.specs.List.{All};
ghost use Rattle.udf_outside.specs.Stops.{bytes_of};
ghost use Rattle.udf_outside.specs.Reads.{OnlyReads};
ghost use Rattle.udf_outside.specs.Sectors.{disk_of};
ghost use Rattle.udf_outside.specs.declared.bench.Role.TheVariants.{Image};
ghost use Rattle.udf_volume.specs.Over.{IsOver};
ghost use Rattle.udf_volume.specs.Taken.{IsOpenOver};
ghost use Rattle.udf_plan.specs.Stated.{copies_at, anchors_stated};
ghost use Rattle.udf_wanted.specs.Wanted.{LookAlike};
ghost use Rattle.udf_wanted.specs.Writable.{AreFree, AreWritable};

use crate::WorkStop;
use crate::copy::put_copy;
use std::alloc::Global;
use udf_outside::Bench;
use udf_volume::{Opened, Volume, anchor_verdict};
use udf_wanted::Wanted;

// Puts the kept anchor's block at places.
fn put_at_places<B: Bench>(
    bench: &mut B,
    volume: &Volume,
    places: &[u32],
    wanted: &mut Wanted,
    block: &mut [u8],
) -> Result<(), WorkStop>
    requires over { IsOver volume.now (B.files bench.old) }
    requires free { AreFree volume.now places.now }
    requires writable { AreWritable volume.now wanted.old }
    requires room { length block.old ≡ volume.now.size }
    ensures put { B.tells → OnOk result (LookAlike wanted.new
        (wanted.old ++ copies_at (disk_of volume.now.size (B.held bench.old) volume.now.anchor) places.now)) }
    ensures writable { OnOk result (AreWritable volume.now wanted.new) }
    ensures reads { OnlyReads B.files B.held B.faults bench.old bench.new WorkStop.Fault result }
{
    for place in places {
        put_copy(bench, volume, volume.anchor, *place, wanted, block)?;
    }
    Ok(())
}

/// Puts what the rule on anchors wants. `block` is lent and has the block size.
pub(crate) fn put_anchors<B: Bench>(
    alloc: Global,
    bench: &mut B,
    opened: &Opened,
    wanted: &mut Wanted,
    block: &mut [u8],
) -> Result<(), WorkStop>
    requires over { IsOpenOver opened.now (B.files bench.old) }
    requires writable { AreWritable opened.now.volume wanted.old }
    requires room { length block.old ≡ opened.now.volume.size }
    ensures put { B.tells → OnOk result (LookAlike wanted.new
        (wanted.old ++ anchors_stated opened.now (bytes_of Image (B.held bench.old)))) }
    ensures writable { OnOk result (AreWritable opened.now.volume wanted.new) }
    ensures reads { OnlyReads B.files B.held B.faults bench.old bench.new WorkStop.Fault result }
{
    let volume = &opened.volume;
    let verdict = anchor_verdict(alloc, bench, volume, &opened.layout, block)?;
    if verdict.holds {
        return Ok(());
    }
    put_at_places(bench, volume, &verdict.bad, wanted, block)?;
    Ok(())
}
