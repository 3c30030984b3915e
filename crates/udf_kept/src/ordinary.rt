// Which found entries are ordinary: reached from the root by fitted FIDs alone.
ghost use Rattle.std.specs.Prelude.{◌≡◌, IfOk, is_some, map};
ghost use Rattle.udf_file_model.specs.Address.{same_addr};
ghost use Rattle.udf_file_model.specs.Listing.{Volume};
ghost use Rattle.udf_tree_model.specs.Frame.{Frame, setting_of, tree_of};
ghost use Rattle.udf_tree_model.specs.Laws.{HasSoundStarts};
ghost use Rattle.udf_tree_model.specs.Parent.{ordinary};
ghost use Rattle.udf_held.specs.Held.{AreHeld};
ghost use Rattle.udf_kept.specs.Fitted.{AreSelected};

use crate::depths::depths_from;
use crate::fitted::Selected;
use std::alloc::{AllocError, Global};
use udf_field::Addr;
use udf_held::Held;

/// The least place of a FID; a pointer has the place 0.
const FIRST_FID: u64 = 1;

// Whether each entry is the root.
fn roots_of(alloc: Global, root: Addr, held: &[Held]) -> Result<Vec<bool>, AllocError>
    ensures { IfOk result (λ roots. roots.items ≡ map (λ h. same_addr h.at root) held.now) }
{
    let mut roots = Vec::new(alloc);
    for entry in held {
        roots.push(entry.at == root)?;
    }
    Ok(roots)
}

// Whether each entry has a depth.
fn are_reached(alloc: Global, depths: &[Option<u64>]) -> Result<Vec<bool>, AllocError>
    ensures { IfOk result (λ reached. reached.items ≡ map is_some depths.now) }
{
    let mut reached = Vec::new(alloc);
    for depth in depths {
        reached.push(depth.is_some())?;
    }
    Ok(reached)
}

/// Whether each found entry is ordinary: reached from the root by fitted FIDs alone.
pub(crate) fn ordinary(
    alloc: Global,
    root: Addr,
    held: &[Held],
    selected: &[Selected],
) -> Result<Vec<bool>, AllocError>
    ensures { (f : Frame) (v : Volume) → f.root ≡ root → HasSoundStarts (setting_of f v) (tree_of f v)
        → AreHeld (setting_of f v) (tree_of f v) held.now → AreSelected (setting_of f v) (tree_of f v) held.now selected.now
        → IfOk result (λ bools. bools.items ≡ map (λ h. ordinary f v h.at) held.now) }
{
    let roots = roots_of(alloc, root, held)?;
    let depths = depths_from(alloc, &roots, selected, FIRST_FID)?;
    are_reached(alloc, &depths)
}
