//! The seal of a log: the digest of the sealed sectors of the image.
ghost use Rattle.std.specs.Prelude.{◌≡◌, ◌≤◌, ◌<◌, ◌+◌, ◌*◌, ◌^◌, length, IfOk};
ghost use Rattle.sha2.specs.Sha256.{sha256};
ghost use Rattle.udf_outside.specs.Files.{IsAttached};
ghost use Rattle.udf_outside.specs.Stops.{bytes_of, slice_of};
ghost use Rattle.udf_outside.specs.Reads.{OnlyReads, failed};
ghost use Rattle.udf_outside.specs.declared.bench.Role.TheVariants.{Image};

use sha2::{Digest, Sha256};
use udf_outside::{Bench, Failed, read_block};

/// The sectors of an image that a log of it seals, by the first one and their number. No plan writes them, and by their digest a
/// log knows its image again.
#[derive(Clone, Copy, Debug, PartialEq, Eq)]
pub struct SealedRun {
    pub first: u32,
    pub count: u32,
}

/// The digest of `count` blocks from the sector `first` on. `block` is lent and has the block size.
pub fn digest_of<B: Bench>(
    bench: &mut B,
    size: u32,
    first: u32,
    count: u32,
    block: &mut [u8],
) -> Result<[u8; 32], Failed>
    requires attached { IsAttached Image (B.files bench.old) }
    requires within { (first + count) * size ≤ (B.files bench.old).image.size }
    requires numbers { first + count < 2 ^ 32 }
    requires room { length block.old ≡ size }
    ensures digest { B.tells → IfOk result (λ digest. digest ≡ sha256 (slice_of (bytes_of Image (B.held bench.old)) (first * size) (count * size))) }
    ensures reads { OnlyReads B.files B.held B.faults bench.old bench.new failed result }
{
    let mut hasher = Sha256::new();
    for i in 0..count {
        read_block(bench, size, first + i, block)?;
        hasher.update(&*block);
    }
    Ok(hasher.finalize())
}
