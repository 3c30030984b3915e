// The stream directories of kept entries.
ghost use Rattle.std.specs.Prelude.{◌≡◌, ℕ, true, None, Some, IfOk, List, MatchOption, find, length, map, nat_eq, option_map, slice_get};
ghost use Rattle.std.specs.BTreeMap.{get};
ghost use Rattle.udf_field.specs.declared.address.Addr.{Addr};
ghost use Rattle.udf_file_model.specs.Listing.{Volume};
ghost use Rattle.udf_tree_model.specs.Among.{Member};
ghost use Rattle.udf_tree_model.specs.Frame.{Frame, setting_of, tree_of};
ghost use Rattle.udf_tree_model.specs.Kept.{kept};
ghost use Rattle.udf_held.specs.declared.held.Held.{Held};
ghost use Rattle.udf_kept.specs.Fitted.{at_of};
ghost use Rattle.udf_tree.specs.Nodes.{AreSurveyed, IsNumbering, numbered};
ghost use Rattle.udf_found.specs.Order.{addr_cmp};
ghost use Rattle.udf_tree.specs.Survey.{named_by, pointed_by, system_from};

use crate::node::NodeId;
use crate::numbers::Numbers;
use std::alloc::{AllocError, Global};
use udf_contents::fitted_at;
use udf_held::Held;
use udf_kept::{Entries, Fitted};

// A pointer has the place 0.
const POINTER: u64 = 0;

// The index of the found entry to which the fitted pointer leads.
fn pointer_in(fitted: &[Fitted]) -> Option<usize>
    ensures { result ≡ option_map (λ x. x.to) (find (λ x. nat_eq x.place 0) fitted.now) }
{
    for link in fitted {
        if link.place == POINTER {
            return Some(link.to);
        }
    }
    None
}

/// The number of the found entry at an index, where it has one.
pub(crate) fn number_at(held: &[Held], numbers: &Numbers, i: usize) -> Option<NodeId>
    ensures { (a : Addr) → at_of held.now i ≡ Some a → result ≡ get addr_cmp numbers.now a }
{
    if i >= held.len() {
        return None;
    }
    match numbers.get(&held[i].at) {
        Some(number) => Some(*number),
        None => None,
    }
}

// The number of the stream directory of the found entry at an index.
fn pointer_at(entries: &Entries, numbers: &Numbers, i: usize) -> Option<NodeId>
    requires { IsNumbering (numbered entries.now.kept.items entries.now.held.items) (get addr_cmp numbers.now) }
    ensures { (f : Frame) (v : Volume) (root file_set : Addr) (links ids : List ℕ) → AreSurveyed f v root file_set entries.now links ids → (a : Addr) → at_of entries.now.held.items i ≡ Some a → kept (setting_of f v) (tree_of f v) a ≡ true
        → named_by (numbered entries.now.kept.items entries.now.held.items) result ≡ pointed_by f v (Some a) }
{
    let Some(to) = pointer_in(fitted_at(&entries.selected, i)) else {
        return None;
    };
    number_at(&entries.held, numbers, to)
}

/// The numbers of the stream directories of found entries by their indexes.
pub(crate) fn pointers_of(
    alloc: Global,
    entries: &Entries,
    numbers: &Numbers,
    indexes: &[usize],
) -> Result<Vec<Option<NodeId>>, AllocError>
    requires numbers { IsNumbering (numbered entries.now.kept.items entries.now.held.items) (get addr_cmp numbers.now) }
    requires indexes { map (at_of entries.now.held.items) indexes.now ≡ map Some (numbered entries.now.kept.items entries.now.held.items) }
    ensures many { IfOk result (λ pointers. length pointers.items ≡ length indexes.now) }
    ensures pointers { (f : Frame) (v : Volume) (root file_set : Addr) (links ids : List ℕ) → AreSurveyed f v root file_set entries.now links ids
        → IfOk result (λ pointers. map (named_by (numbered entries.now.kept.items entries.now.held.items)) pointers.items ≡ map (λ i. pointed_by f v (at_of entries.now.held.items i)) indexes.now) }
{
    let mut pointers = Vec::new(alloc);
    for index in indexes {
        pointers.push(pointer_at(entries, numbers, *index))?;
    }
    Ok(pointers)
}

/// The index of the holder of the pointer to the system stream directory: the found entry with no block of its own.
pub(crate) fn holder_in(held: &[Held]) -> Option<usize>
    ensures { MatchOption result ((h : Held) → Member h held.now → h.shape ≡ None → ⊥) (λ i. (h : Held) × (slice_get held.now i ≡ Some h) × (h.shape ≡ None)) }
{
    for (i, entry) in held.iter().enumerate() {
        if entry.shape.is_none() {
            return Some(i);
        }
    }
    None
}

/// The number of the system stream directory.
pub(crate) fn system_of(entries: &Entries, numbers: &Numbers) -> Option<NodeId>
    requires { IsNumbering (numbered entries.now.kept.items entries.now.held.items) (get addr_cmp numbers.now) }
    ensures { (f : Frame) (v : Volume) (root file_set : Addr) (links ids : List ℕ) → AreSurveyed f v root file_set entries.now links ids
        → named_by (numbered entries.now.kept.items entries.now.held.items) result ≡ option_map Some (system_from f v) }
{
    let Some(i) = holder_in(&entries.held) else {
        return None;
    };
    pointer_at(entries, numbers, i)
}
