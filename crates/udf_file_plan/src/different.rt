// A wanted block that is put where another one stands: memory is for such blocks alone, and a repair writes no others.
ghost use Rattle.std.specs.Prelude.{◌≡◌, ◌++◌, ◌∷◌, [], length, OnOk, true};
ghost use Rattle.std.specs.Str.{bytes_eq};
ghost use Rattle.udf_wanted.specs.Wanted.{LookAlike, differing};
ghost use Rattle.udf_wanted.specs.Writable.{AreWritable, is_free};

use std::alloc::AllocError;
use udf_volume::Volume;
use udf_wanted::Wanted;

/// Whether two areas hold the same bytes.
pub(crate) fn is_same(now: &[u8], after: &[u8]) -> bool
    ensures { result ≡ bytes_eq now.now after.now }
{
    now == after
}

/// Puts a block at a sector where the one that stands there, `now`, is another.
pub(crate) fn put_different(
    volume: &Volume,
    sector: u32,
    now: &[u8],
    after: &[u8],
    wanted: &mut Wanted,
) -> Result<(), AllocError>
    requires free { is_free volume.now sector ≡ true }
    requires room { length after.now ≡ volume.now.size }
    requires writable { AreWritable volume.now wanted.old }
    ensures put { OnOk result (LookAlike wanted.new (wanted.old ++ differing (λ _. now.now) ((sector, after.now) ∷ []))) }
    ensures writable { OnOk result (AreWritable volume.now wanted.new) }
{
    if is_same(now, after) {
        return Ok(());
    }
    wanted.put(sector, after)?;
    Ok(())
}
