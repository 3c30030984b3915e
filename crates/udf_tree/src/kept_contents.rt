// The contents of kept directories.
ghost use Rattle.std.specs.Prelude.{◌≡◌, ◌<◌, ℕ, true, IfOk, List, length};
ghost use Rattle.udf_field.specs.declared.address.Addr.{Addr};
ghost use Rattle.udf_file_model.specs.Listing.{Volume};
ghost use Rattle.udf_tree_model.specs.Frame.{Frame, setting_of, tree_of};
ghost use Rattle.udf_tree_model.specs.Laws.{HasSoundStarts};
ghost use Rattle.udf_kept.specs.Fitted.{IsSelected};
ghost use Rattle.udf_held.specs.Held.{IsHeld, IsHeldOf};
ghost use Rattle.udf_kept.specs.Keeping.{IsKeptBy};
ghost use Rattle.udf_tree.specs.KeptContents.{AreKeptContents, IsKeptContent, content_held};
ghost use Rattle.udf_tree.specs.Nodes.{AreSurveyed};

use crate::numbers::keeping_at;
use std::alloc::{AllocError, Global};
use udf_contents::{is_stream_directory, parent_of, parents_stay};
use udf_field::Addr;
use udf_held::Held;
use udf_kept::{Entries, Keeping, Selected};

/// The content of a kept directory up to the kept length.
#[derive(Clone, Copy, Debug, PartialEq, Eq)]
pub struct KeptContent {
    pub bytes: u64,
    /// Whether its FIDs stand one after another to its end, each deleted, live or a parent FID, one of them is a parent FID, and
    /// unless the directory is a stream directory this names its parent (ECMA-167 4/8.6).
    pub whole: bool,
}

// The content of a found entry that is kept so, where it is a directory with a block of its own.
fn content_of(
    entries: &Entries,
    root: Addr,
    file_set: Addr,
    entry: &Held,
    own: &Selected,
    keeping: Keeping,
) -> Option<KeptContent>
    ensures { (f : Frame) (v : Volume) → f.root ≡ root → f.file_set ≡ file_set → 0 < v.size → HasSoundStarts (setting_of f v) (tree_of f v)
        → IsHeld (setting_of f v) (tree_of f v) entry.now → IsHeldOf f v entry.now → IsSelected (setting_of f v) (tree_of f v) entries.now.held.items entry.now own.now
        → IsKeptBy (setting_of f v) (tree_of f v) entries.now.held.items entry.now keeping → result ≡ content_held f v entry.now }
{
    let Some(shape) = &entry.shape else {
        return None;
    };
    if !entry.directory {
        return None;
    }
    let is_stream = is_stream_directory(entry, own);
    let above = parent_of(&entries.held, root, file_set, entry, keeping);
    Some(KeptContent {
        bytes: entry.kept.min(shape.content),
        whole: parents_stay(entry.parents.only, is_stream, above),
    })
}

// That of the found entry at an index.
fn content_at(entries: &Entries, root: Addr, file_set: Addr, i: usize) -> Option<KeptContent>
    ensures { (f : Frame) (v : Volume) (links ids : List ℕ) → 0 < v.size → AreSurveyed f v root file_set entries.now links ids → IsKeptContent f v entries.now.held.items i result }
{
    let Some(keeping) = keeping_at(&entries.kept, i) else {
        return None;
    };
    if i >= entries.held.len() {
        return None;
    }
    if i >= entries.selected.len() {
        return None;
    }
    let entry = &entries.held[i];
    let own = &entries.selected[i];
    content_of(entries, root, file_set, entry, own, keeping)
}

/// The contents of kept directories among the found entries at these indexes, in order; None of another entry. `root` is the root,
/// `file_set` the address of the file set.
pub(crate) fn contents_at(
    alloc: Global,
    entries: &Entries,
    root: Addr,
    file_set: Addr,
    indexes: &[usize],
) -> Result<Vec<Option<KeptContent>>, AllocError>
    ensures many { IfOk result (λ contents. length contents.items ≡ length indexes.now) }
    ensures contents { (f : Frame) (v : Volume) (links ids : List ℕ) → 0 < v.size → AreSurveyed f v root file_set entries.now links ids
        → IfOk result (λ contents. AreKeptContents f v entries.now.held.items indexes.now contents.items) }
{
    let mut contents = Vec::new(alloc);
    for index in indexes {
        contents.push(content_at(entries, root, file_set, *index))?;
    }
    Ok(contents)
}
