// Where the found entries of a list stand in it.
ghost use Rattle.std.specs.Prelude.{IfOk};
ghost use Rattle.std.specs.BTreeMap.{get};
ghost use Rattle.udf_kept.specs.Indexed.{IsIndex};
ghost use Rattle.udf_found.specs.Order.{addr_cmp};

use std::alloc::{AllocError, Global};
use std::collections::BTreeMap;
use udf_field::Addr;
use udf_held::Held;

/// The positions of entries by their addresses.
pub type Positions = BTreeMap<Addr, usize>;

/// The positions of found entries in their list.
pub fn positions_of(alloc: Global, held: &[Held]) -> Result<Positions, AllocError>
    ensures { IfOk result (λ positions. IsIndex held.now (get addr_cmp positions)) }
{
    let mut positions = BTreeMap::new(alloc);
    for (i, entry) in held.iter().enumerate() {
        positions.insert(entry.at, i)?;
    }
    Ok(positions)
}
