//! A wanted block that is the copy of another one of the image, relocated.
ghost use Rattle.std.specs.Prelude.{◌≡◌, ◌<◌, ◌++◌, ◌∷◌, [], length, OnOk, true};
ghost use Rattle.udf_model.specs.Tag.{relocated};
ghost use Rattle.udf_outside.specs.Reads.{OnlyReads};
ghost use Rattle.udf_outside.specs.Sectors.{disk_of};
ghost use Rattle.udf_volume.specs.Over.{IsOver};
ghost use Rattle.udf_wanted.specs.Wanted.{LookAlike};
ghost use Rattle.udf_wanted.specs.Writable.{AreWritable, is_free};

use crate::WorkStop;
use udf_field::relocate;
use udf_outside::{Bench, read_block};
use udf_volume::Volume;
use udf_wanted::Wanted;

/// Puts the copy of a block at another sector, relocated. `block` is lent and has the block size.
pub(crate) fn put_copy<B: Bench>(
    bench: &mut B,
    volume: &Volume,
    from: u32,
    to: u32,
    wanted: &mut Wanted,
    block: &mut [u8],
) -> Result<(), WorkStop>
    requires over { IsOver volume.now (B.files bench.old) }
    requires inside { from < volume.now.blocks }
    requires free { is_free volume.now to ≡ true }
    requires writable { AreWritable volume.now wanted.old }
    requires room { length block.old ≡ volume.now.size }
    ensures put { B.tells → OnOk result (LookAlike wanted.new
        (wanted.old ++ (to, relocated to (disk_of volume.now.size (B.held bench.old) from)) ∷ [])) }
    ensures writable { OnOk result (AreWritable volume.now wanted.new) }
    ensures reads { OnlyReads B.files B.held B.faults bench.old bench.new WorkStop.Fault result }
{
    read_block(bench, volume.size, from, block)?;
    relocate(block, to);
    wanted.put(to, block)?;
    Ok(())
}
