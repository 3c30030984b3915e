// What a new integrity descriptor takes from the volume.
ghost use Rattle.std.specs.Prelude.{◌≡◌, ◌≤◌, length, take, drop, IfOk};
ghost use Rattle.udf_outside.specs.Reads.{OnlyReads, failed};
ghost use Rattle.udf_outside.specs.Sectors.{disk_of};
ghost use Rattle.udf_space_mends.specs.IntegrityMend.{origin_of};
ghost use Rattle.udf_space_plan.specs.Descriptor.{origin_seen};
ghost use Rattle.udf_volume.specs.Over.{IsOver};

use udf_field::Fields;
use udf_outside::{Bench, Failed, read_block};
use udf_volume::Volume;

/// Where the recording time stands in a primary volume descriptor (ECMA-167 3/10.1.16).
const RECORDED: usize = 376;

const STAMP_BYTES: usize = 12;

/// Where the revision stands in a logical volume descriptor: in the suffix of its domain (3/10.6.6, UDF 2.1.5.3).
const REVISION: usize = 240;

/// The recording time of the primary volume descriptor, and the revision in the suffix of the logical volume descriptor's domain.
#[derive(Clone, Copy, Debug, PartialEq, Eq)]
pub(crate) struct Origin {
    pub stamp: [u8; 12],
    pub revision: u16,
}

// The recording time in the block of a primary volume descriptor.
fn stamp_in(primary: &[u8]) -> [u8; 12]
    requires { 512 ≤ length primary.now }
    ensures { result ≡ take 12 (drop 376 primary.now) }
{
    let mut stamp = [0u8; 12];
    stamp.copy_from_slice(&primary[RECORDED..RECORDED + STAMP_BYTES]);
    stamp
}

/// What a new descriptor takes from a volume. `block` is lent and has the block size.
pub(crate) fn read_origin<B: Bench>(
    bench: &mut B,
    volume: &Volume,
    block: &mut [u8],
) -> Result<Origin, Failed>
    requires over { IsOver volume.now (B.files bench.old) }
    requires room { length block.old ≡ volume.now.size }
    ensures origin { B.tells → IfOk result (λ o. origin_seen o
        ≡ origin_of (disk_of volume.now.size (B.held bench.old) volume.now.pvd) (disk_of volume.now.size (B.held bench.old) volume.now.lvd)) }
    ensures stamp { IfOk result (λ o. length o.stamp ≡ 12) }
    ensures reads { OnlyReads B.files B.held B.faults bench.old bench.new failed result }
{
    read_block(bench, volume.size, volume.pvd, block)?;
    let stamp = stamp_in(block);
    read_block(bench, volume.size, volume.lvd, block)?;
    let revision = Fields::over(block).u16_at(REVISION);
    Ok(Origin { stamp, revision })
}
