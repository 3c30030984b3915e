// Which kept directories need a content anew.
ghost use Rattle.std.specs.Prelude.{◌≡◌, ◌<◌, ◌&&◌, ℕ, true, is_some, length, slice_get, IfOk, List, Option, Some};
ghost use Rattle.std.specs.BTreeMap.{get};
ghost use Rattle.std.specs.List.{list_all};
ghost use Rattle.udf_file_model.specs.Listing.{Volume};
ghost use Rattle.udf_tree_model.specs.Among.{Member};
ghost use Rattle.udf_tree_model.specs.Chosen.{chosen_link};
ghost use Rattle.udf_tree_model.specs.Content.{content_stays};
ghost use Rattle.udf_tree_model.specs.Frame.{Frame, setting_of, tree_of};
ghost use Rattle.udf_tree_model.specs.Kept.{kept};
ghost use Rattle.udf_tree_model.specs.Laws.{HasSoundStarts};
ghost use Rattle.udf_tree_model.specs.Parent.{parent};
ghost use Rattle.udf_held.specs.declared.held.Held.{Held};
ghost use Rattle.udf_kept.specs.declared.keeping.Keeping.{Keeping};
ghost use Rattle.udf_kept.specs.Fitted.{IsChoice, IsSelected};
ghost use Rattle.udf_held.specs.Held.{IsHeld, IsHeldOf};
ghost use Rattle.udf_kept.specs.Indexed.{IsIndex};
ghost use Rattle.udf_kept.specs.Keeping.{IsKeeping};
ghost use Rattle.udf_found.specs.Order.{addr_cmp};
ghost use Rattle.udf_contents.specs.Stays.{AreMends, IsMend, Surveys, Tells, choice_by, link_holds, names_parent, target_holds};

use crate::parent::{is_link, is_stream_directory, parent_of};
use std::alloc::{AllocError, Global};
use udf_field::Addr;
use udf_found::Link;
use udf_held::Held;
use udf_kept::{Choice, Keeping, Positions, Selected, positions_of};

/// Whether a found entry is sound and has a block of its own.
pub fn is_sound_entry(target: &Held) -> bool
    ensures { result ≡ (target.now.sound && is_some target.now.shape) }
{
    target.sound && target.shape.is_some()
}

// Whether the FID at a place of a holder may name a found entry, where this is the chosen link to that.
fn target_stays(
    held: &[Held],
    target: &Held,
    choice: Option<Choice>,
    holder: Addr,
    place: u64,
) -> bool
    ensures { (f : Frame) (v : Volume) → IsHeld (setting_of f v) (tree_of f v) target.now → IsHeldOf f v target.now
        → (target.now.directory ≡ true → IsChoice held.now (λ d. d.level) (chosen_link (setting_of f v) (tree_of f v) target.now.at) choice)
        → result ≡ target_holds (setting_of f v) (tree_of f v) holder place target.now.at }
{
    if !is_sound_entry(target) {
        return false;
    }
    if !target.directory {
        return true;
    }
    if target.is_start {
        return false;
    }
    is_link(held, choice, holder, place)
}

/// The chosen link to the entry at an index.
pub fn chosen_at(selected: &[Selected], i: usize) -> Option<Choice>
    ensures { result ≡ choice_by (slice_get selected.now i) }
{
    if i < selected.len() {
        selected[i].chosen
    } else {
        None
    }
}

// Whether a link of a holder is a pointer or needs no mend.
fn link_stays(
    held: &[Held],
    positions: &Positions,
    selected: &[Selected],
    holder: Addr,
    link: &Link,
) -> bool
    requires { IsIndex held.now (get addr_cmp positions.now) }
    ensures { (f : Frame) (v : Volume) → Tells f v held.now selected.now
        → result ≡ link_holds (setting_of f v) (tree_of f v) holder link.now }
{
    if link.place == 0 {
        return true;
    }
    if link.earlier.is_some() {
        return false;
    }
    let Some(&i) = positions.get(&link.target) else {
        return false;
    };
    target_stays(held, &held[i], chosen_at(selected, i), holder, link.place)
}

// Whether none of the links of a holder needs a mend.
fn links_stay(held: &[Held], positions: &Positions, selected: &[Selected], holder: &Held) -> bool
    requires { IsIndex held.now (get addr_cmp positions.now) }
    ensures { (f : Frame) (v : Volume) → Tells f v held.now selected.now
        → result ≡ list_all (link_holds (setting_of f v) (tree_of f v) holder.now.at) holder.now.links.items }
{
    for link in &holder.links {
        if !link_stays(held, positions, selected, holder.at, link) {
            return false;
        }
    }
    true
}

/// Whether what the parent FIDs of a directory's content tell is in order under this parent.
pub fn parents_stay(only: Option<Addr>, is_stream: bool, above: Addr) -> bool
    ensures { result ≡ names_parent is_stream above only }
{
    match only {
        Some(at) => is_stream || at == above,
        None => false,
    }
}

// Whether the content of a kept directory under this parent needs no mend.
fn stays(
    held: &[Held],
    positions: &Positions,
    selected: &[Selected],
    entry: &Held,
    own: &Selected,
    above: Addr,
) -> bool
    requires { IsIndex held.now (get addr_cmp positions.now) }
    ensures { (f : Frame) (v : Volume) → Tells f v held.now selected.now → HasSoundStarts (setting_of f v) (tree_of f v)
        → Member entry.now held.now → IsSelected (setting_of f v) (tree_of f v) held.now entry.now own.now
        → kept (setting_of f v) (tree_of f v) entry.now.at ≡ true → is_some entry.now.shape ≡ true → above ≡ parent f v entry.now.at
        → result ≡ content_stays f v entry.now.at }
{
    let is_stream = is_stream_directory(entry, own);
    parents_stay(entry.parents.only, is_stream, above)
        && links_stay(held, positions, selected, entry)
}

// The parent of a kept directory whose content is to be written anew; none of another entry.
fn mend_of(
    held: &[Held],
    positions: &Positions,
    selected: &[Selected],
    root: Addr,
    file_set: Addr,
    entry: &Held,
    own: &Selected,
    keeping: Option<Keeping>,
) -> Option<Addr>
    requires { IsIndex held.now (get addr_cmp positions.now) }
    ensures { (f : Frame) (v : Volume) (ks : List (Option Keeping)) → Surveys f v root file_set held.now selected.now ks
        → Member entry.now held.now → IsSelected (setting_of f v) (tree_of f v) held.now entry.now own.now
        → IsKeeping (setting_of f v) (tree_of f v) held.now entry.now keeping → IsMend f v entry.now keeping result }
{
    let keeping = keeping?;
    if !entry.directory {
        return None;
    }
    if entry.shape.is_none() {
        return None;
    }
    let above = parent_of(held, root, file_set, entry, keeping);
    if stays(held, positions, selected, entry, own, above) {
        None
    } else {
        Some(above)
    }
}

// How the entry at an index is kept.
fn keeping_at(kept: &[Option<Keeping>], i: usize) -> Option<Keeping>
    requires { i < length kept.now }
    ensures { slice_get kept.now i ≡ Some result }
{
    kept[i]
}

// The same of the entry at an index.
fn mend_at(
    held: &[Held],
    positions: &Positions,
    selected: &[Selected],
    kept: &[Option<Keeping>],
    root: Addr,
    file_set: Addr,
    i: usize,
    entry: &Held,
) -> Option<Addr>
    requires { IsIndex held.now (get addr_cmp positions.now) }
    ensures { (f : Frame) (v : Volume) → Surveys f v root file_set held.now selected.now kept.now → slice_get held.now i ≡ Some entry.now
        → (k : Option Keeping) → slice_get kept.now i ≡ Some k → IsMend f v entry.now k result }
{
    if i >= selected.len() {
        return None;
    }
    if i >= kept.len() {
        return None;
    }
    let keeping = keeping_at(kept, i);
    mend_of(
        held,
        positions,
        selected,
        root,
        file_set,
        entry,
        &selected[i],
        keeping,
    )
}

// The same of each entry.
fn mends_by(
    alloc: Global,
    held: &[Held],
    positions: &Positions,
    selected: &[Selected],
    kept: &[Option<Keeping>],
    root: Addr,
    file_set: Addr,
) -> Result<Vec<Option<Addr>>, AllocError>
    requires { IsIndex held.now (get addr_cmp positions.now) }
    ensures { (f : Frame) (v : Volume) → Surveys f v root file_set held.now selected.now kept.now
        → IfOk result (λ ms. AreMends f v held.now kept.now ms.items) }
{
    let mut mends = Vec::new(alloc);
    for (i, entry) in held.iter().enumerate() {
        let mend = mend_at(held, positions, selected, kept, root, file_set, i, entry);
        mends.push(mend)?;
    }
    Ok(mends)
}

/// The parents of the kept directories whose contents are to be written anew, in the order of the found entries: those with a
/// live FID that names no sound entry, is not the first of its name or is not the chosen link to the directory that it names,
/// and those whose FIDs or parent FID are not in order. Takes n log n in the entries and their links.
pub(crate) fn mends_of(
    alloc: Global,
    held: &[Held],
    selected: &[Selected],
    kept: &[Option<Keeping>],
    root: Addr,
    file_set: Addr,
) -> Result<Vec<Option<Addr>>, AllocError>
    ensures { (f : Frame) (v : Volume) → Surveys f v root file_set held.now selected.now kept.now
        → IfOk result (λ ms. AreMends f v held.now kept.now ms.items) }
{
    let positions = positions_of(alloc, held)?;
    mends_by(alloc, held, &positions, selected, kept, root, file_set)
}
