//! A block of a plan, where it differs from the image's.
ghost use Rattle.std.specs.Prelude.{◌≡◌, ◌<◌, ◌++◌, ◌∷◌, [], length, OnOk, true};
ghost use Rattle.std.specs.Str.{bytes_eq};
ghost use Rattle.udf_blocks.specs.Planned.{are_below};
ghost use Rattle.udf_wanted.specs.Wanted.{differing};

use crate::{NoMemory, Plan};

fn is_same(now: &[u8], wanted: &[u8]) -> bool
    ensures { result ≡ bytes_eq now.now wanted.now }
{
    now == wanted
}

/// Adds a wanted block to a plan, where the image's block of that sector is another.
pub(crate) fn add_difference(
    plan: &mut Plan,
    sector: u32,
    now: &[u8],
    wanted: &[u8],
) -> Result<(), NoMemory>
    requires sized { length wanted.now ≡ plan.old.size }
    requires above { are_below sector plan.old.blocks ≡ true }
    requires below { sector < 4294967295 }
    ensures { OnOk result (plan.new ≡ record plan.old {
      blocks = plan.old.blocks ++ differing (λ _. now.now) ((sector, wanted.now) ∷ []);
    }) }
{
    if is_same(now, wanted) {
        return Ok(());
    }
    plan.push(sector, wanted)?;
    Ok(())
}
