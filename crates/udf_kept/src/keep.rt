// What is kept of the found entries: the starts, and what fitted links of kept entries lead to.
ghost use Rattle.std.specs.Prelude.{◌≡◌, IfOk, length, map};
ghost use Rattle.udf_tree_model.specs.Node.{Setting, Tree};
ghost use Rattle.udf_tree_model.specs.Laws.{HasSoundStarts, IsWithin};
ghost use Rattle.udf_held.specs.Held.{AreHeld};
ghost use Rattle.udf_kept.specs.Fitted.{AreSelected};
ghost use Rattle.udf_kept.specs.Keeping.{AreKept};
ghost use Rattle.udf_kept.specs.FirstLinks.{ArePut, keeping_seen};

use crate::depths::depths_from;
use crate::first_links::{KeepingLink, first_links};
use crate::fitted::Selected;
use crate::keeping::Keeping;
use std::alloc::{AllocError, Global};
use udf_held::Held;

// Whether the search begins at each entry.
fn starts_of(alloc: Global, held: &[Held]) -> Result<Vec<bool>, AllocError>
    ensures { IfOk result (λ starts. starts.items ≡ map (λ h. h.is_start) held.now) }
{
    let mut starts = Vec::new(alloc);
    for entry in held {
        starts.push(entry.is_start)?;
    }
    Ok(starts)
}

// How an entry is kept, by its depth and the first link to it.
fn keeping_of(depth: Option<u64>, first: Option<KeepingLink>) -> Option<Keeping>
    ensures { result ≡ keeping_seen depth first }
{
    let depth = depth?;
    let by = first.map(|link| link.choice);
    Some(Keeping { depth, by })
}

// How each entry is kept, by its depth and the first link to it.
fn keepings_of(
    alloc: Global,
    depths: &[Option<u64>],
    first: &[Option<KeepingLink>],
) -> Result<Vec<Option<Keeping>>, AllocError>
    requires { length first.now ≡ length depths.now }
    ensures { IfOk result (λ keepings. ArePut depths.now first.now keepings.items) }
{
    let mut keepings = Vec::new(alloc);
    for (entry, depth) in depths.iter().enumerate() {
        keepings.push(keeping_of(*depth, first[entry]))?;
    }
    Ok(keepings)
}

/// How each found entry is kept, or that it is not, in the order of the found entries.
pub(crate) fn keep(
    alloc: Global,
    held: &[Held],
    selected: &[Selected],
) -> Result<Vec<Option<Keeping>>, AllocError>
    ensures { (s : Setting) (t : Tree) → IsWithin s t → HasSoundStarts s t → AreHeld s t held.now → AreSelected s t held.now selected.now
        → IfOk result (λ keepings. AreKept s t held.now keepings.items) }
{
    let starts = starts_of(alloc, held)?;
    let depths = depths_from(alloc, &starts, selected, 0)?;
    let first = first_links(alloc, held, selected, &depths)?;
    keepings_of(alloc, &depths, &first)
}
